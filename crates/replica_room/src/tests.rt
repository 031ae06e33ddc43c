use crate::{outs_room, state_room};
use std::test::Fail;

// There is room for the greatest of the states, and for 16 ports with 16 words each.
#[test]
fn rooms(rt: HostRuntime) -> Result<(), Fail> {
    assert_eq!(rt; state_room(rt.alloc(), &[2, 7, 0])?.len(), 7);
    assert_eq!(rt; state_room(rt.alloc(), &[])?.len(), 0);
    assert_eq!(rt; outs_room(rt.alloc())?.len(), 256);
    Ok(())
}
