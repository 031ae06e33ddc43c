use crate::{Clock, is_over, may_act};

const fn running(tick: u32) -> Clock {
    Clock {
        tick,
        is_running: true,
    }
}

const fn silent(tick: u32) -> Clock {
    Clock {
        tick,
        is_running: false,
    }
}

// With a precision of 2 a replica may be one tick ahead of the last that runs; a silent one holds nobody back.
#[test]
fn one_tick_ahead(rt: HostRuntime) {
    let clocks = [running(3), running(2), silent(0), running(4)];
    for (replica, may) in [(0, true), (1, true), (2, false), (3, false)] {
        assert_eq!(rt; may_act(&clocks, replica, 6, 2), may);
    }
    assert!(rt; !may_act(&clocks, 1, 2, 2));
    assert!(rt; !is_over(&clocks, 6));
    assert!(rt; is_over(&[running(6), silent(2)], 6));
    assert!(rt; !is_over(&[silent(6), silent(2)], 6));
}
