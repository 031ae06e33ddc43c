use crate::{Script, Silence};
use mars_base::Side;
use std::test::Fail;

fn silence(unit: u8, side: Side, cycle: u32, tick: u32) -> Silence {
    Silence {
        unit,
        side,
        cycle,
        tick,
    }
}

// Of several silences of a replica the earliest counts, in whatever order they stand.
#[test]
fn running_and_lost(rt: HostRuntime) -> Result<(), Fail> {
    let script = Script {
        silences: vec![in rt.alloc();
            silence(1, Side::A, 2, 0),
            silence(1, Side::B, 3, 5),
            silence(1, Side::B, 2, 5),
        ]?,
        paces: Vec::new(rt.alloc()),
    };
    for (unit, side, cycle, tick, runs) in [
        (1, Side::A, 1, 23, true),
        (1, Side::A, 2, 0, false),
        (1, Side::A, 3, 0, false),
        (1, Side::B, 2, 4, true),
        (1, Side::B, 2, 5, false),
        (1, Side::B, 3, 0, false),
        (0, Side::A, 9, 9, true),
    ] {
        assert_eq!(rt; script.is_running(unit, side, cycle, tick), runs);
    }
    for (unit, cycle, ticks, lost) in [
        (1, 1, 24, false),
        (1, 2, 24, true),
        (1, 2, 5, false),
        (0, 2, 24, false),
    ] {
        assert_eq!(rt; script.is_lost(unit, cycle, ticks), lost);
    }
    Ok(())
}
