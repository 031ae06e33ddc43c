use crate::{is_lost, some_lost, write_lost_units};
use first_silence::Moment;
use lines::LineBuf;
use mars_base::MemSink;
use std::test::Fail;

// Both replicas of unit 1 fall silent in cycle 2, the later one at its tick 5; of unit 0 one falls at once.
#[test]
fn a_unit_is_lost_with_its_second_silence(rt: HostRuntime) -> Result<(), Fail> {
    let alloc = rt.alloc();
    let firsts = [
        Some(Moment { cycle: 0, tick: 0 }),
        None,
        Some(Moment { cycle: 2, tick: 0 }),
        Some(Moment { cycle: 2, tick: 5 }),
    ];
    assert!(rt; !is_lost(&firsts, 0, 9, 24));
    assert!(rt; !is_lost(&firsts, 1, 1, 24));
    assert!(rt; is_lost(&firsts, 1, 2, 24));
    assert!(rt; !is_lost(&firsts, 1, 2, 5));
    assert!(rt; !some_lost(&firsts, 2, 1, 24));
    assert!(rt; some_lost(&firsts, 2, 2, 24));
    let mut buffer = LineBuf::new(alloc)?;
    let mut out = MemSink::new(alloc, 100, Vec::new(alloc))?;
    assert!(rt; write_lost_units(&mut buffer, &mut out, &firsts, 2, 2, 24).is_ok());
    assert!(rt; buffer.flush(&mut out).is_ok());
    assert_eq!(rt; out.bytes(), b"lost 2 u1\n".as_slice());
    Ok(())
}
