//! Faults by their numbers, as they are said.
use crate::{fault_of, kind_numbered};
use mars_base::{MemSink, Text};
use project_sheet::{Fault, Place, Section};
use refusals::say;
use std::test::Fail;

#[test]
fn faults_are_said(rt: HostRuntime) -> Result<(), Fail> {
    let alloc = rt.alloc();
    for (number, section, line) in [
        (2, Section::Top, "mars: p: top 0: unknown key\n"),
        (
            10,
            Section::Transaction,
            "mars: p: transaction 0: deadline above period\n",
        ),
        (
            13,
            Section::Task,
            "mars: p: task 0: task not in a transaction\n",
        ),
        (20, Section::Edge, "mars: p: edge 0: width differs\n"),
    ] {
        let fault = Fault {
            kind: kind_numbered(number),
            place: Place { section, entry: 0 },
        };
        let name = Text::from_slice(alloc, b"p").map_err(|_| "memory")?;
        let mut err = MemSink::new(alloc, 80, Vec::new(alloc)).map_err(|_| "memory")?;
        say(&mut err, &Err(fault_of(name, fault)));
        assert_eq!(rt; err.bytes(), line.as_bytes());
    }
    Ok(())
}
