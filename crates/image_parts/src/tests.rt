//! Parts as bytes, and read back.
use crate::{Readable, list8_at, shape_at};
use formats::Unread;
use graph::Edge;
use std::test::Fail;
use word_code::{Instr, Slot};

#[test]
fn slots(rt: HostRuntime) -> Result<(), Fail> {
    let alloc = rt.alloc();
    // PUSH of minus one, at height 2
    let push = [0, 2, 255, 255, 255, 255, 7];
    let (slot, rest) = Slot::read(alloc, &push)?;
    assert_eq!(rt; slot.instr, Instr::Push(-1));
    assert_eq!(rt; slot.height, 2);
    assert_eq!(rt; rest, [7].as_slice());
    // CINC of counter 3 with the bound 9
    let (slot, _) = Slot::read(alloc, &[24, 0, 0, 3, 0, 9])?;
    assert_eq!(rt;
        slot.instr,
        Instr::CInc {
            counter: 3,
            bound: 9
        }
    );
    // ADD has no operand, no counter is 256, no height is 65, and no op is 28
    assert_eq!(rt;
        Slot::read(alloc, &[5, 2, 0, 0, 0, 1]).err(),
        Some(Unread::Left(4))
    );
    assert_eq!(rt;
        Slot::read(alloc, &[24, 0, 1, 0, 0, 9]).err(),
        Some(Unread::Left(4))
    );
    assert_eq!(rt;
        Slot::read(alloc, &[27, 65, 0, 0, 0, 0]).err(),
        Some(Unread::Left(5))
    );
    assert_eq!(rt;
        Slot::read(alloc, &[28, 0, 0, 0, 0, 0]).err(),
        Some(Unread::Left(6))
    );
    Ok(())
}

#[test]
fn records(rt: HostRuntime) -> Result<(), Fail> {
    let alloc = rt.alloc();
    let (shape, _) = shape_at(&[1, 2, 1, 0, 7, 0, 0, 0, 6])?;
    assert_eq!(rt; shape.cycles_per_tick, 7);
    assert_eq!(rt; shape.round, 6);
    let (edges, _) = list8_at::<Edge>(alloc, &[1, 0, 1, 2, 3], 1, 1)?;
    let edge = Edge {
        from_task: 0,
        from_port: 1,
        to_task: 2,
        to_port: 3,
    };
    assert_eq!(rt; edges.as_slice(), [edge].as_slice());
    Ok(())
}
