//! Numbers as bytes, and bytes read back.
use crate::{Unread, put_u8, put_u16, put_u32, u8_in, u16_in, u32_in};
use std::test::Fail;

#[test]
fn fields(rt: HostRuntime) -> Result<(), Fail> {
    assert_eq!(rt; u8_in(&[7, 9], 0, 7)?, (7, [9].as_slice()));
    assert_eq!(rt; u8_in(&[8, 9], 0, 7), Err(Unread::Left(2)));
    assert_eq!(rt; u8_in(&[], 0, 255), Err(Unread::Left(0)));
    assert_eq!(rt; u16_in(&[1, 2, 9], 0, 258)?, (258, [9].as_slice()));
    assert_eq!(rt; u16_in(&[1, 2, 9], 259, 300), Err(Unread::Left(3)));
    assert_eq!(rt; u16_in(&[1], 0, 258), Err(Unread::Left(1)));
    assert_eq!(rt; u32_in(&[0, 1, 0, 2], 0, 65_538)?, (65_538, [].as_slice()));
    assert_eq!(rt; u32_in(&[0, 1, 0], 0, 65_538), Err(Unread::Left(3)));
    Ok(())
}

#[test]
fn bytes(rt: HostRuntime) -> Result<(), Fail> {
    let mut into = Vec::new(rt.alloc());
    put_u8(7, &mut into)?;
    put_u16(258, &mut into)?;
    put_u32(65_538, &mut into)?;
    assert_eq!(rt; into.as_slice(), [7, 1, 2, 0, 1, 0, 2].as_slice());
    Ok(())
}
