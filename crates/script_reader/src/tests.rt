use crate::{ScriptFault, read_script};
use mars_base::Side;
use script::{Pace, Silence};
use std::alloc::Global;
use std::process::Abort;
use std::test::Fail;

// Reads a script for two units and a cycle of 24 ticks: how many silences and paces it has, or its bad line.
fn counts(rt: &impl Abort, alloc: Global, text: &[u8], silences: usize, paces: usize, bad: u32) {
    assert!(rt; text.len() <= 1_048_576);
    match read_script(alloc, text, 2, 24) {
        Ok(script) => {
            assert_eq!(rt; bad, 0);
            assert_eq!(rt; script.silences.len(), silences);
            assert_eq!(rt; script.paces.len(), paces);
        }
        Err(fault) => assert_eq!(rt; fault, ScriptFault::Bad(bad)),
    }
}

// Each form of line at its limits.
#[test]
fn lines_at_their_limits(rt: HostRuntime) {
    let alloc = rt.alloc();
    for (text, silences, paces, bad) in [
        ("", 0, 0, 0),
        ("# any text\n \t\r\n\n#", 0, 0, 0),
        ("silence u1 B 999999 23\r\n", 1, 0, 0),
        ("\tsilence  u0 A 0000000000 0000000023 ", 1, 0, 0),
        ("pace 999999 u1 A 65536\npace 0 u0 B 1", 0, 2, 0),
        ("\n # x", 0, 0, 2),
        ("silence u2 A 0 0", 0, 0, 1),
        ("silence u01 A 0 0", 0, 0, 1),
        ("silence u1 C 0 0", 0, 0, 1),
        ("silence u1 A 1000000 0", 0, 0, 1),
        ("silence u1 A 0 24", 0, 0, 1),
        ("silence u1 A 0 00000000001", 0, 0, 1),
        ("silence u1 A 0", 0, 0, 1),
        ("silence u1 A 0 0 0", 0, 0, 1),
        ("pace 0 u0 A 0", 0, 0, 1),
        ("pace 0 u0 A 65537", 0, 0, 1),
        ("restart u0 A 1", 0, 0, 1),
        ("#\npace 0 u0 A 1\r", 0, 0, 2),
    ] {
        counts(&rt, alloc, text.as_bytes(), silences, paces, bad);
    }
}

// Silences and paces come in their order.
#[test]
fn events_in_their_order(rt: HostRuntime) -> Result<(), Fail> {
    let text = b"silence u0 B 2 3\npace 7 u1 A 5\nsilence u1 A 1 0\n";
    let script = read_script(rt.alloc(), text, 2, 24)?;
    let first = Silence {
        unit: 0,
        side: Side::B,
        cycle: 2,
        tick: 3,
    };
    let second = Silence {
        unit: 1,
        side: Side::A,
        cycle: 1,
        tick: 0,
    };
    let pace = Pace {
        cycle: 7,
        unit: 1,
        side: Side::A,
        count: 5,
    };
    assert_eq!(rt; script.silences.as_slice(), [first, second].as_slice());
    assert_eq!(rt; script.paces.as_slice(), [pace].as_slice());
    Ok(())
}
