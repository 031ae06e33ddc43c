use super::{answer, tasks_of};
use project_sheet::{Place, Section};
use std::test::Fail;

/// Two tasks of two units, joined by an edge.
const P2: &str =
    "[cluster]\nunits = 2\nslot_words = 2\nprecision = 1\ncycles_per_tick = 7\n[[task]]\nname = \"a\"\nfile = \"inc.mc\"\nunits = [0]\n[[task]]\nname = \"b\"\nfile = \"inc.mc\"\nunits = [1]\n[[transaction]]\nname = \"t\"\nperiod = 24\ndeadline = 24\ntasks = [\"a\", \"b\"]\n[[edge]]\nfrom = \"a.y\"\nto = \"b.a\"\n[[sensor]]\nname = \"s\"\nto = \"a.a\"\n[[actuator]]\nname = \"v\"\nfrom = \"b.y\"\n";

/// Four transactions of three tasks each on four units.
const PLANT: &str =
    "[cluster]\nunits = 4\nslot_words = 8\nprecision = 2\ncycles_per_tick = 40\nround = 100\n[[task]]\nname = \"sense0\"\nfile = \"sense.mc\"\nunits = [1]\n[[task]]\nname = \"ctl0\"\nfile = \"ctl.mc\"\nunits = [3]\n[[task]]\nname = \"act0\"\nfile = \"act.mc\"\nunits = [0]\n[[task]]\nname = \"sense1\"\nfile = \"sense.mc\"\nunits = [2]\n[[task]]\nname = \"ctl1\"\nfile = \"ctl.mc\"\nunits = [2]\n[[task]]\nname = \"act1\"\nfile = \"act.mc\"\nunits = [0]\n[[task]]\nname = \"sense2\"\nfile = \"sense.mc\"\nunits = [0]\n[[task]]\nname = \"ctl2\"\nfile = \"ctl.mc\"\nunits = [2]\n[[task]]\nname = \"act2\"\nfile = \"act.mc\"\nunits = [3]\n[[task]]\nname = \"sense3\"\nfile = \"sense.mc\"\nunits = [3]\n[[task]]\nname = \"ctl3\"\nfile = \"ctl.mc\"\nunits = [1]\n[[task]]\nname = \"act3\"\nfile = \"act.mc\"\nunits = [2]\n[[transaction]]\nname = \"t0\"\nperiod = 100\ndeadline = 100\ntasks = [\"sense0\", \"ctl0\", \"act0\"]\n[[transaction]]\nname = \"t1\"\nperiod = 100\ndeadline = 100\ntasks = [\"sense1\", \"ctl1\", \"act1\"]\n[[transaction]]\nname = \"t2\"\nperiod = 200\ndeadline = 200\ntasks = [\"sense2\", \"ctl2\", \"act2\"]\n[[transaction]]\nname = \"t3\"\nperiod = 200\ndeadline = 200\ntasks = [\"sense3\", \"ctl3\", \"act3\"]\n[[edge]]\nfrom = \"sense0.y\"\nto = \"ctl0.m\"\n[[edge]]\nfrom = \"ctl0.u\"\nto = \"act0.u\"\n[[edge]]\nfrom = \"sense1.y\"\nto = \"ctl1.m\"\n[[edge]]\nfrom = \"ctl1.u\"\nto = \"act1.u\"\n[[edge]]\nfrom = \"sense2.y\"\nto = \"ctl2.m\"\n[[edge]]\nfrom = \"ctl2.u\"\nto = \"act2.u\"\n[[edge]]\nfrom = \"sense3.y\"\nto = \"ctl3.m\"\n[[edge]]\nfrom = \"ctl3.u\"\nto = \"act3.u\"\n[[sensor]]\nname = \"s0\"\nto = \"sense0.x\"\n[[sensor]]\nname = \"s1\"\nto = \"sense1.x\"\n[[sensor]]\nname = \"s2\"\nto = \"sense2.x\"\n[[sensor]]\nname = \"s3\"\nto = \"sense3.x\"\n[[actuator]]\nname = \"v0\"\nfrom = \"act0.p\"\n[[actuator]]\nname = \"v1\"\nfrom = \"act1.p\"\n[[actuator]]\nname = \"v2\"\nfrom = \"act2.p\"\n[[actuator]]\nname = \"v3\"\nfrom = \"act3.p\"\n";

fn at(section: Section, entry: u32) -> Option<Place> {
    Some(Place { section, entry })
}

// The lesser kind, then the earlier section, then the lesser entry is answered.
#[test]
fn two_tasks_are_bound(rt: HostRuntime) -> Result<(), Fail> {
    let alloc = rt.alloc();
    let inc = (("a", 1), ("y", 1));
    let Ok(tasks) = tasks_of(alloc, &[inc, inc]) else {
        panic!(rt; "there is memory");
    };
    let edge = "[[edge]]\nfrom = \"a.y\"\nto = \"b.a\"\n";
    let rows = [
        ("[[task]]", "[[task]]", 0, None),
        ("from = \"b.y\"", "from = \"a.y\"", 0, None),
        (edge, "", 18, at(Section::Task, 1)),
        (
            "[[sensor]]",
            "[[sensor]]\nname = \"r\"\nto = \"b.a\"\n[[sensor]]",
            19,
            at(Section::Task, 1),
        ),
        (
            "[[sensor]]",
            "[[edge]]\nfrom = \"a.y\"\nto = \"b.a\"\n[[sensor]]",
            19,
            at(Section::Task, 1),
        ),
        ("b.a", "b.b", 17, at(Section::Edge, 0)),
        ("a.y", "a.a", 17, at(Section::Edge, 0)),
        ("a.a", "a.y", 17, at(Section::Sensor, 0)),
        ("b.y", "b.a", 17, at(Section::Actuator, 0)),
        (
            edge,
            "[[sensor]]\nname = \"r\"\nto = \"a.a\"\n",
            18,
            at(Section::Task, 1),
        ),
    ];
    for (old, new, kind, place) in rows {
        let text = P2.replace(alloc, old, new)?;
        assert_eq!(rt; answer(alloc, &text, &tasks), (kind, place), "{new}");
    }
    Ok(())
}

#[test]
fn widths_are_compared(rt: HostRuntime) -> Result<(), Fail> {
    let alloc = rt.alloc();
    let Ok(tasks) = tasks_of(alloc, &[(("a", 1), ("y", 2)), (("a", 1), ("y", 1))]) else {
        panic!(rt; "there is memory");
    };
    assert_eq!(rt; answer(alloc, P2, &tasks), (20, at(Section::Edge, 0)));
    Ok(())
}

#[test]
fn a_plant_is_sound(rt: HostRuntime) -> Result<(), Fail> {
    let alloc = rt.alloc();
    let sense = (("x", 1), ("y", 1));
    let control = (("m", 1), ("u", 1));
    let act = (("u", 1), ("p", 1));
    let tasks = [
        sense, control, act, sense, control, act, sense, control, act, sense, control, act,
    ];
    let Ok(tasks) = tasks_of(alloc, &tasks) else {
        panic!(rt; "there is memory");
    };
    assert_eq!(rt; answer(alloc, PLANT, &tasks), (0, None));
    Ok(())
}
