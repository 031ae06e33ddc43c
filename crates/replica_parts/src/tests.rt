use crate::Inbox;
use std::test::Fail;

// Two messages of one frame: the first is there, the second isn't; a frame that didn't come brings nothing.
#[test]
fn taken_from_a_frame(rt: HostRuntime) -> Result<(), Fail> {
    let mut inbox = Inbox::new(rt.alloc(), &[2, 1])?;
    assert_eq!(rt; inbox.get(0), None);
    let frame = [0, 1, 7, -8, 0, 9];
    inbox.take(0, 1, Some(&frame[..]));
    inbox.take(1, 4, Some(&frame[..]));
    assert_eq!(rt; inbox.get(0), Some(&[7, -8][..]));
    assert_eq!(rt; inbox.get(1), None);
    inbox.take(0, 1, None);
    assert_eq!(rt; inbox.get(0), None);
    inbox.take(1, 1, Some(&frame[..]));
    assert_eq!(rt; inbox.get(1), Some(&[7][..]));
    inbox.clear();
    assert_eq!(rt; inbox.get(1), None);
    Ok(())
}
