use crate::CycleLine;
use std::test::Fail;

// A line of two words is kept until the next cycle begins, which has another.
#[test]
fn two_cycles(rt: HostRuntime) -> Result<(), Fail> {
    let mut line = CycleLine::new(rt.alloc(), 2)?;
    assert!(rt; line.line().is_none());
    line.keep(&[3, -4]);
    line.keep(&[3, -4]);
    assert_eq!(rt; line.line(), Some(&[3, -4][..]));
    line.clear();
    assert!(rt; line.line().is_none());
    line.keep(&[0, 5]);
    assert_eq!(rt; line.line(), Some(&[0, 5][..]));
    Ok(())
}
