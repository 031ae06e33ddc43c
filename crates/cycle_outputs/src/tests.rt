ghost use Rattle.std.specs.Prelude.{◌≡◌};

use crate::{CycleOutput, ordered_outputs};
use graph::Net;
use mars_base::Memory;
use sqlite_items::Items;
use std::alloc::Global;
use std::process::Abort;
use std::test::Fail;
use tables::{JobEntry, Tables, valid};
use worked_nets::{graph_of, net_of, shape_of};

// A task `p` twice a cycle and a task `q` once, on one unit: `q` feeds the actuator `w`, and `p` the two behind it.
fn two_periods(alloc: Global) -> Result<Net, Memory> {
    net_of(
        alloc,
        shape_of(1, 1, 6),
        &[("p", 0, 1), ("q", 1, 1)],
        &[("t", 6, 6), ("u", 12, 12)],
        &[],
        &[("r", 0), ("s", 1)],
        &[("w", 1), ("v", 0), ("x", 0)],
    )
}

// An entry of a job of unit 0.
fn entry(job: u16, start: u32, end: u32) -> JobEntry {
    JobEntry {
        job,
        unit: 0,
        start,
        end,
    }
}

// The outputs of the tables in which `p` ends at the ticks 2 and 9 and `q` at 5; none where they aren't the net's.
fn listed(alloc: Global) -> Result<Vec<CycleOutput>, Memory> {
    let net = two_periods(alloc)?;
    let Ok(Some(graph)) = graph_of(alloc, &net, &[1, 1]) else {
        return Err(Memory);
    };
    let jobs = [entry(0, 1, 2), entry(1, 8, 9), entry(2, 4, 5)];
    let tables = Tables {
        jobs: Items::from_slice(alloc, &jobs)?,
        messages: Items::from_slice(alloc, &[])?,
    };
    let Ok(()) = valid(&tables, &net, &graph) else {
        return Err(Memory);
    };
    ordered_outputs(alloc, &net, &graph, &tables)
}

// An output as its tick, its actuator and its instance.
fn output(tick: u32, actuator: u16, instance: u32) -> CycleOutput {
    CycleOutput {
        tick,
        actuator,
        instance,
    }
}

// At one tick the actuators come in order, and an earlier tick comes before a lesser actuator.
#[test]
fn by_tick_and_then_by_actuator(rt: HostRuntime) -> Result<(), Fail> {
    let list = listed(rt.alloc())?;
    let expected = [
        output(2, 1, 0),
        output(2, 2, 0),
        output(5, 0, 0),
        output(9, 1, 1),
        output(9, 2, 1),
    ];
    assert_eq!(rt; list.as_slice(), expected.as_slice());
    Ok(())
}
