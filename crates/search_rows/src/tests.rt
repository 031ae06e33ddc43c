ghost use Rattle.std.specs.Prelude.{◌≡◌};

use graph::Net;
use mars_base::{Memory, Steps};
use passes::SearchFault;
use search::search;
use std::alloc::Global;
use std::process::Abort;
use std::test::Fail;
use tables::{JobEntry, Message, Tables};
use worked_nets::{
    graph_of, net_of, one_is_free, one_task, plant, shape_of, two_on_one_unit, two_tasks,
};

/// The search of a net with the length in ticks of each task's jobs, within a budget.
fn searched(
    alloc: Global,
    net: &Net,
    lengths: &[u32],
    budget: u32,
    steps: &mut Steps,
) -> Result<Tables, SearchFault>
    requires { steps.old ≡ 0 }
{
    let Ok(Some(graph)) = graph_of(alloc, net, lengths) else {
        return Err(SearchFault::Memory);
    };
    search(alloc, net, &graph, budget, steps)
}

/// The fault of a search within a budget, and the steps that it takes.
fn compare(
    rt: &impl Abort,
    alloc: Global,
    net: &Net,
    lengths: &[u32],
    budget: u32,
    fault: Option<SearchFault>,
    taken: u64,
) {
    let mut steps = Steps::new();
    let found = searched(alloc, net, lengths, budget, &mut steps).err();
    assert_eq!(rt; found, fault);
    assert_eq!(rt; steps.taken(), taken);
}

#[test]
fn two_on_one_unit_by_deadline(rt: HostRuntime) -> Result<(), Fail> {
    let alloc = rt.alloc();
    for (deadline, budget, fault, steps) in [
        (14, 3, None, 3),
        (14, 1000, None, 3),
        (14, 2, Some(SearchFault::Spent), 2),
        (13, 5, Some(SearchFault::NoTable), 5),
        (13, 4, Some(SearchFault::Spent), 4),
    ] {
        let net = two_on_one_unit(alloc, deadline)?;
        compare(&rt, alloc, &net, &[7, 7], budget, fault, steps);
    }
    Ok(())
}

#[test]
fn a_task_that_is_free_makes_way(rt: HostRuntime) -> Result<(), Fail> {
    let alloc = rt.alloc();
    let net = one_is_free(alloc)?;
    for (budget, fault, steps) in [
        (6, None, 6),
        (5, Some(SearchFault::Spent), 5),
        (0, Some(SearchFault::Spent), 0),
    ] {
        compare(&rt, alloc, &net, &[7, 7], budget, fault, steps);
    }
    Ok(())
}

/// The entry of a job on a unit.
fn entry(job: u16, unit: u8, start: u32, end: u32) -> JobEntry {
    JobEntry {
        job,
        unit,
        start,
        end,
    }
}

/// The tables that a search finds.
fn compare_tables(
    rt: &impl Abort,
    alloc: Global,
    net: &Net,
    lengths: &[u32],
    budget: u32,
    jobs: &[JobEntry],
    messages: &[Message],
) -> Result<(), Memory> {
    let mut steps = Steps::new();
    let Ok(tables) = searched(alloc, net, lengths, budget, &mut steps) else {
        return Err(Memory);
    };
    assert!(rt; tables.jobs.as_slice() == jobs);
    assert!(rt; tables.messages.as_slice() == messages);
    Ok(())
}

/// A message of the first instance, from unit 0 and from the first word of its frame on.
fn message(edge: u16, round: u32) -> Message {
    Message {
        edge,
        instance: 0,
        unit: 0,
        round,
        offset: 0,
    }
}

#[test]
fn a_message_goes_in_the_first_frame_after_its_producer(rt: HostRuntime) -> Result<(), Fail> {
    let alloc = rt.alloc();
    let net = two_tasks(alloc)?;
    let jobs = [entry(0, 0, 0, 1), entry(1, 1, 18, 19)];
    compare_tables(&rt, alloc, &net, &[1, 1], 3, &jobs, &[message(0, 1)])?;
    compare(&rt, alloc, &net, &[1, 1], 2, Some(SearchFault::Spent), 2);
    Ok(())
}

/// A task of unit 0 that feeds two tasks of unit 1. A frame has the words of one message.
fn one_for_two(alloc: Global) -> Result<Net, Memory> {
    net_of(
        alloc,
        shape_of(2, 7, 12),
        &[("a", 0, 1), ("b", 0, 2), ("c", 0, 2)],
        &[("t", 36, 36)],
        &[(0, 1), (0, 2)],
        &[("s", 0)],
        &[],
    )
}

#[test]
fn a_full_frame_is_passed_over(rt: HostRuntime) -> Result<(), Fail> {
    let alloc = rt.alloc();
    let net = one_for_two(alloc)?;
    let jobs = [entry(0, 0, 0, 1), entry(1, 1, 18, 19), entry(2, 1, 30, 31)];
    let messages = [message(0, 1), message(1, 2)];
    compare_tables(&rt, alloc, &net, &[1, 1, 1], 4, &jobs, &messages)?;
    Ok(())
}

/// Whether each job starts at its release, six ticks after the one before.
fn start_at_releases(tables: &Tables) -> bool {
    tables
        .jobs
        .as_slice()
        .iter()
        .all(|entry| entry.start == 6 * u32::from(entry.job))
}

#[test]
fn many_instances_start_at_their_releases(rt: HostRuntime) -> Result<(), Fail> {
    let alloc = rt.alloc();
    let net = one_task(alloc, 3072, 6, 6)?;
    let mut steps = Steps::new();
    let Ok(tables) = searched(alloc, &net, &[1], 513, &mut steps) else {
        return Err(Memory)?;
    };
    assert_eq!(rt; tables.jobs.len(), 512);
    assert!(rt; start_at_releases(&tables));
    compare(&rt, alloc, &net, &[1], 512, Some(SearchFault::Spent), 512);
    Ok(())
}

/// The units and the starts of the plant's jobs, task by task and instance by instance.
const PLANT_JOBS: [(u8, u32); 18] = [
    (1, 0),
    (1, 100),
    (3, 40),
    (3, 140),
    (0, 80),
    (0, 180),
    (2, 0),
    (2, 100),
    (2, 4),
    (2, 104),
    (0, 60),
    (0, 160),
    (0, 0),
    (2, 120),
    (3, 160),
    (3, 0),
    (1, 80),
    (2, 140),
];

/// Whether the jobs stand in the tables on these units, from these starts on.
fn are_placed(tables: &Tables, rows: &[(u8, u32)]) -> bool {
    let jobs = tables.jobs.as_slice();
    if jobs.len() != rows.len() {
        return false;
    }
    jobs.iter()
        .zip(rows.iter())
        .all(|(entry, row)| entry.unit == row.0 && entry.start == row.1)
}

#[test]
fn the_plant_takes_as_many_steps_as_it_has_jobs_and_one(rt: HostRuntime) -> Result<(), Fail> {
    let alloc = rt.alloc();
    let net = plant(alloc)?;
    let lengths = [4, 2, 1, 4, 2, 1, 4, 2, 1, 4, 2, 1];
    let mut steps = Steps::new();
    let Ok(tables) = searched(alloc, &net, &lengths, 19, &mut steps) else {
        return Err(Memory)?;
    };
    assert!(rt; are_placed(&tables, &PLANT_JOBS));
    compare(&rt, alloc, &net, &lengths, 18, Some(SearchFault::Spent), 18);
    Ok(())
}
