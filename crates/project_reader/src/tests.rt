use crate::{ProjectFault, read_project};
use project_sheet::{Place, Section};
use std::alloc::Global;
use std::process::Abort;
use std::test::Fail;

/// One task of one unit, fed by a sensor.
const P1: &str =
    "[cluster]\nunits = 1\nslot_words = 2\nprecision = 1\ncycles_per_tick = 7\n[[task]]\nname = \"inc\"\nfile = \"inc.mc\"\nunits = [0]\n[[transaction]]\nname = \"t\"\nperiod = 6\ndeadline = 6\ntasks = [\"inc\"]\n[[sensor]]\nname = \"s\"\nto = \"inc.a\"\n[[actuator]]\nname = \"v\"\nfrom = \"inc.y\"\n";

/// Two tasks of two units, joined by an edge.
const P2: &str =
    "[cluster]\nunits = 2\nslot_words = 2\nprecision = 1\ncycles_per_tick = 7\n[[task]]\nname = \"a\"\nfile = \"inc.mc\"\nunits = [0]\n[[task]]\nname = \"b\"\nfile = \"inc.mc\"\nunits = [1]\n[[transaction]]\nname = \"t\"\nperiod = 24\ndeadline = 24\ntasks = [\"a\", \"b\"]\n[[edge]]\nfrom = \"a.y\"\nto = \"b.a\"\n[[sensor]]\nname = \"s\"\nto = \"a.a\"\n[[actuator]]\nname = \"v\"\nfrom = \"b.y\"\n";

/// Four transactions of three tasks each on four units.
const PLANT: &str =
    "[cluster]\nunits = 4\nslot_words = 8\nprecision = 2\ncycles_per_tick = 40\nround = 100\n[[task]]\nname = \"sense0\"\nfile = \"sense.mc\"\nunits = [1]\n[[task]]\nname = \"ctl0\"\nfile = \"ctl.mc\"\nunits = [3]\n[[task]]\nname = \"act0\"\nfile = \"act.mc\"\nunits = [0]\n[[task]]\nname = \"sense1\"\nfile = \"sense.mc\"\nunits = [2]\n[[task]]\nname = \"ctl1\"\nfile = \"ctl.mc\"\nunits = [2]\n[[task]]\nname = \"act1\"\nfile = \"act.mc\"\nunits = [0]\n[[task]]\nname = \"sense2\"\nfile = \"sense.mc\"\nunits = [0]\n[[task]]\nname = \"ctl2\"\nfile = \"ctl.mc\"\nunits = [2]\n[[task]]\nname = \"act2\"\nfile = \"act.mc\"\nunits = [3]\n[[task]]\nname = \"sense3\"\nfile = \"sense.mc\"\nunits = [3]\n[[task]]\nname = \"ctl3\"\nfile = \"ctl.mc\"\nunits = [1]\n[[task]]\nname = \"act3\"\nfile = \"act.mc\"\nunits = [2]\n[[transaction]]\nname = \"t0\"\nperiod = 100\ndeadline = 100\ntasks = [\"sense0\", \"ctl0\", \"act0\"]\n[[transaction]]\nname = \"t1\"\nperiod = 100\ndeadline = 100\ntasks = [\"sense1\", \"ctl1\", \"act1\"]\n[[transaction]]\nname = \"t2\"\nperiod = 200\ndeadline = 200\ntasks = [\"sense2\", \"ctl2\", \"act2\"]\n[[transaction]]\nname = \"t3\"\nperiod = 200\ndeadline = 200\ntasks = [\"sense3\", \"ctl3\", \"act3\"]\n[[edge]]\nfrom = \"sense0.y\"\nto = \"ctl0.m\"\n[[edge]]\nfrom = \"ctl0.u\"\nto = \"act0.u\"\n[[edge]]\nfrom = \"sense1.y\"\nto = \"ctl1.m\"\n[[edge]]\nfrom = \"ctl1.u\"\nto = \"act1.u\"\n[[edge]]\nfrom = \"sense2.y\"\nto = \"ctl2.m\"\n[[edge]]\nfrom = \"ctl2.u\"\nto = \"act2.u\"\n[[edge]]\nfrom = \"sense3.y\"\nto = \"ctl3.m\"\n[[edge]]\nfrom = \"ctl3.u\"\nto = \"act3.u\"\n[[sensor]]\nname = \"s0\"\nto = \"sense0.x\"\n[[sensor]]\nname = \"s1\"\nto = \"sense1.x\"\n[[sensor]]\nname = \"s2\"\nto = \"sense2.x\"\n[[sensor]]\nname = \"s3\"\nto = \"sense3.x\"\n[[actuator]]\nname = \"v0\"\nfrom = \"act0.p\"\n[[actuator]]\nname = \"v1\"\nfrom = \"act1.p\"\n[[actuator]]\nname = \"v2\"\nfrom = \"act2.p\"\n[[actuator]]\nname = \"v3\"\nfrom = \"act3.p\"\n";

/// The kind of the fault and its place; 0 where the project is read, 255 without memory.
fn answer(alloc: Global, text: &[u8]) -> (u8, Option<Place>) {
    match read_project(alloc, text) {
        Ok(_) => (0, None),
        Err(ProjectFault::Bad { kind, place }) => (kind, place),
        Err(ProjectFault::Memory) => (255, None),
    }
}

/// What is answered for each text with a part in another's place.
fn rows_hold(
    rt: &impl Abort,
    alloc: Global,
    text: &str,
    rows: &[(&str, &str, u8, Option<Place>)],
) -> Result<(), Fail> {
    for (old, new, kind, place) in rows {
        let text = text.replace(alloc, old, new)?;
        assert_eq!(rt; answer(alloc, text.as_bytes()), (*kind, *place), "{new}");
    }
    Ok(())
}

fn at(section: Section, entry: u32) -> Option<Place> {
    Some(Place { section, entry })
}

#[test]
fn one_task_has_each_fault(rt: HostRuntime) -> Result<(), Fail> {
    let task = at(Section::Task, 0);
    let cluster = at(Section::Cluster, 0);
    let transaction = at(Section::Transaction, 0);
    let rows = [
        ("[[sensor]]", "[[sensors]]", 2, at(Section::Top, 0)),
        ("file = ", "files = ", 2, task),
        ("to = \"inc.a\"", "", 3, at(Section::Sensor, 0)),
        ("[[sensor]]", "[sensor]", 4, at(Section::Top, 0)),
        ("units = [0]", "units = [\"0\"]", 4, task),
        ("units = 1", "units = 9", 5, cluster),
        ("units = [0]", "units = []", 5, task),
        ("units = [0]", "units = [8]", 5, task),
        ("inc.y", "inc.y.z", 6, at(Section::Actuator, 0)),
        ("\"inc.y\"", "\"inc\"", 6, at(Section::Actuator, 0)),
        ("tasks = [\"inc\"]", "tasks = [\"1\"]", 6, transaction),
        ("units = [0]", "units = [0, 0]", 7, task),
        (
            "units = [0]",
            "[[task]]\nname = \"inc\"\nfile = \"b\"",
            7,
            at(Section::Task, 1),
        ),
        ("tasks = [\"inc\"]", "tasks = []", 8, transaction),
        ("precision = 1", "precision = 1\nround = 5", 9, cluster),
        ("precision = 1", "precision = 1\nround = 6", 0, None),
        ("deadline = 6", "deadline = 7", 10, transaction),
        ("deadline = 6", "deadline = 5", 0, None),
        ("units = [0]", "units = [1]", 11, task),
        ("inc.a", "dec.a", 12, at(Section::Sensor, 0)),
        (
            "units = [0]",
            "[[task]]\nname = \"b\"\nfile = \"b\"",
            13,
            at(Section::Task, 1),
        ),
        ("[\"inc\"]", "[\"inc\", \"inc\"]", 14, task),
        (
            "[[sensor]]",
            "[[edge]]\nfrom = \"inc.y\"\nto = \"inc.a\"\n[[sensor]]",
            16,
            transaction,
        ),
    ];
    rows_hold(&rt, rt.alloc(), P1, &rows)
}

#[test]
fn two_tasks_are_joined(rt: HostRuntime) -> Result<(), Fail> {
    let rows = [
        (
            "[[sensor]]\nname = \"s\"\nto = \"a.a\"",
            "[[edge]]\nfrom = \"b.y\"\nto = \"a.a\"",
            16,
            at(Section::Transaction, 0),
        ),
        (
            "tasks = [\"a\", \"b\"]",
            "tasks = [\"a\"]\n[[transaction]]\nname = \"u\"\nperiod = 24\ndeadline = 24\ntasks = [\"b\"]",
            15,
            at(Section::Edge, 0),
        ),
        (
            "tasks = [\"a\", \"b\"]",
            "tasks = [\"a\", \"b\"]\n[[transaction]]\nname = \"u\"\nperiod = 24\ndeadline = 24\ntasks = [\"b\"]",
            14,
            at(Section::Task, 1),
        ),
    ];
    rows_hold(&rt, rt.alloc(), P2, &rows)
}

// Two faults at once: the lesser kind, then the earlier section, then the lesser entry is answered.
#[test]
fn the_first_fault_is_answered(rt: HostRuntime) -> Result<(), Fail> {
    let rows = [
        (
            "units = 1\n",
            "units = \"1\"\nround = 0\n",
            4,
            at(Section::Cluster, 0),
        ),
        (
            "units = [0]",
            "units = [9]\nfiles = 1",
            2,
            at(Section::Task, 0),
        ),
        ("inc", "1", 6, at(Section::Task, 0)),
        (
            "period = 6\ndeadline = 6",
            "period = 0\ndeadline = 0\nextra = 0",
            2,
            at(Section::Transaction, 0),
        ),
        (
            "precision = 1",
            "precision = 9\nround = 65537",
            5,
            at(Section::Cluster, 0),
        ),
        (
            "[[sensor]]\nname = \"s\"",
            "[[sensor]]\nto = \"x.a\"\nname = \"p\"\n[[sensor]]\nname = \"p\"",
            7,
            at(Section::Sensor, 1),
        ),
        (
            "deadline = 6",
            "deadline = 7\n[[edge]]\nfrom = \"x.y\"\nto = \"x.a\"",
            2,
            at(Section::Edge, 0),
        ),
    ];
    rows_hold(&rt, rt.alloc(), P1, &rows)
}

// What toml's own definition of a document makes of its corners.
#[test]
fn documents_have_corners(rt: HostRuntime) -> Result<(), Fail> {
    let alloc = rt.alloc();
    let top = at(Section::Top, 0);
    assert_eq!(rt; answer(alloc, b"a = "), (1, None));
    assert_eq!(rt; answer(alloc, &[255]), (1, None));
    assert_eq!(rt; answer(alloc, b""), (3, top));
    let rows = [
        ("units = 1", "units = 1\nunits = 1", 1, None),
        ("period = 6", "period = 99999999999999999999", 1, None),
        ("units = 1", "units = 1.0", 4, at(Section::Cluster, 0)),
        (
            "tasks = [\"inc\"]",
            "tasks = \"inc\"",
            4,
            at(Section::Transaction, 0),
        ),
        (
            "tasks = [\"inc\"]",
            "tasks = [\"inc\", 1]",
            4,
            at(Section::Transaction, 0),
        ),
        ("[[task]]", "[task.a]", 4, top),
        ("[cluster]", "\u{feff}[cluster]", 0, None),
        (
            "[cluster]\nunits = 1\nslot_words = 2\nprecision = 1\ncycles_per_tick = 7",
            "cluster.units = 1\ncluster.slot_words = 2\ncluster.precision = 1\ncluster.cycles_per_tick = 7",
            0,
            None,
        ),
        (
            "[cluster]\nunits = 1\nslot_words = 2\nprecision = 1\ncycles_per_tick = 7",
            "cluster = { units = 1,\nslot_words = 2, precision = 1,\ncycles_per_tick = 7, }",
            0,
            None,
        ),
    ];
    rows_hold(&rt, alloc, P1, &rows)
}

#[test]
fn a_plant_is_read(rt: HostRuntime) -> Result<(), Fail> {
    let alloc = rt.alloc();
    let Ok(plant) = read_project(alloc, PLANT.as_bytes()) else {
        panic!(rt; "a plant has no fault");
    };
    assert_eq!(rt; plant.shape.units, 4);
    assert_eq!(rt; plant.shape.cycles_per_tick, 40);
    assert_eq!(rt; plant.shape.round, 100);
    let masks = [2, 8, 1, 4, 4, 1, 1, 4, 8, 8, 2, 4];
    let transactions = [0, 0, 0, 1, 1, 1, 2, 2, 2, 3, 3, 3];
    for (place, task) in plant.tasks.as_slice().iter().enumerate() {
        assert_eq!(rt; masks.get(place), Some(&task.units));
        assert_eq!(rt; transactions.get(place), Some(&task.transaction));
    }
    assert_eq!(rt; plant.tasks.len(), 12);
    assert_eq!(rt; plant.edges.len(), 8);
    let Some(edge) = plant.edges.get(3) else {
        panic!(rt; "eight edges");
    };
    assert_eq!(rt; (edge.from.task, edge.to.task), (4, 5));
    assert_eq!(rt; edge.to.port.as_slice(), b"u".as_slice());
    let Some(actuator) = plant.actuators.get(2) else {
        panic!(rt; "four actuators");
    };
    assert_eq!(rt; actuator.name.as_slice(), b"v2".as_slice());
    assert_eq!(rt; actuator.port.task, 8);
    let Ok(one) = read_project(alloc, P1.as_bytes()) else {
        panic!(rt; "one task has no fault");
    };
    assert_eq!(rt; one.shape.round, 6);
    Ok(())
}
