//! The lengths of jobs.
use crate::lengths_of;
use std::test::Fail;

#[test]
fn lengths(rt: HostRuntime) -> Result<(), Fail> {
    let lengths = lengths_of(rt.alloc(), &[1, 156, 51, 14, 160, 161], 40)?;
    assert_eq!(rt; lengths.as_slice(), [1, 4, 2, 1, 4, 5].as_slice());
    Ok(())
}
