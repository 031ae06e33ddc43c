//! Worked rows of the command `plan`, over the outside in memory.
use mars_base::{MemShelf, MemSink, MemSource};
use mars_top::mars;
use std::alloc::Global;
use std::test::Fail;

const SENSE: &[u8] =
    b"task sense; in x; out y; state ring[4]; state k; body { var i; var sum; ring[k] = x; k = (k + 1) % 4; while max 4 (i < 4) { sum = sum + ring[i]; i = i + 1; } y = sum / 4; }";

const CTL: &[u8] =
    b"task ctl; in m; out u; state acc; body { acc = acc + m - 50; if (acc > 100) { acc = 100; } else { if (acc < 0) { acc = 0; } } u = (acc + 3 * m) / 8; }";

const ACT: &[u8] = b"task act; in u; out p; body { p = u; if (u < 0) { p = 0; } }";

// One task of one unit, fed by a sensor.
const ONE: &str =
    "[cluster]\nunits = 1\nslot_words = 2\nprecision = 1\ncycles_per_tick = 7\n[[task]]\nname = \"inc\"\nfile = \"inc.mc\"\nunits = [0]\n[[transaction]]\nname = \"t\"\nperiod = 6\ndeadline = 6\ntasks = [\"inc\"]\n[[sensor]]\nname = \"s\"\nto = \"inc.a\"\n[[actuator]]\nname = \"v\"\nfrom = \"inc.y\"\n";

// Two tasks of two units, joined by an edge.
const TWO: &str =
    "[cluster]\nunits = 2\nslot_words = 2\nprecision = 1\ncycles_per_tick = 7\n[[task]]\nname = \"a\"\nfile = \"inc.mc\"\nunits = [0]\n[[task]]\nname = \"b\"\nfile = \"inc.mc\"\nunits = [1]\n[[transaction]]\nname = \"t\"\nperiod = 24\ndeadline = 24\ntasks = [\"a\", \"b\"]\n[[edge]]\nfrom = \"a.y\"\nto = \"b.a\"\n[[sensor]]\nname = \"s\"\nto = \"a.a\"\n[[actuator]]\nname = \"v\"\nfrom = \"b.y\"\n";

// Two tasks that share one unit.
const SHARED: &str =
    "[cluster]\nunits = 1\nslot_words = 2\nprecision = 1\ncycles_per_tick = 1\n[[task]]\nname = \"p\"\nfile = \"inc.mc\"\nunits = [0]\n[[task]]\nname = \"q\"\nfile = \"inc.mc\"\nunits = [0]\n[[transaction]]\nname = \"t\"\nperiod = 18\ndeadline = 14\ntasks = [\"p\", \"q\"]\n[[sensor]]\nname = \"s\"\nto = \"p.a\"\n[[sensor]]\nname = \"r\"\nto = \"q.a\"\n[[actuator]]\nname = \"v\"\nfrom = \"p.y\"\n[[actuator]]\nname = \"w\"\nfrom = \"q.y\"\n";

// Two tasks of two units, one of which may run on both.
const FREE: &str =
    "[cluster]\nunits = 2\nslot_words = 2\nprecision = 1\ncycles_per_tick = 1\n[[task]]\nname = \"p\"\nfile = \"inc.mc\"\n[[task]]\nname = \"q\"\nfile = \"inc.mc\"\nunits = [0]\n[[transaction]]\nname = \"t\"\nperiod = 24\ndeadline = 13\ntasks = [\"p\", \"q\"]\n[[sensor]]\nname = \"s\"\nto = \"p.a\"\n[[sensor]]\nname = \"r\"\nto = \"q.a\"\n[[actuator]]\nname = \"v\"\nfrom = \"p.y\"\n[[actuator]]\nname = \"w\"\nfrom = \"q.y\"\n";

// Four transactions of three tasks each on four units.
const PLANT: &str =
    "[cluster]\nunits = 4\nslot_words = 8\nprecision = 2\ncycles_per_tick = 40\nround = 100\n[[task]]\nname = \"sense0\"\nfile = \"sense.mc\"\nunits = [1]\n[[task]]\nname = \"ctl0\"\nfile = \"ctl.mc\"\nunits = [3]\n[[task]]\nname = \"act0\"\nfile = \"act.mc\"\nunits = [0]\n[[task]]\nname = \"sense1\"\nfile = \"sense.mc\"\nunits = [2]\n[[task]]\nname = \"ctl1\"\nfile = \"ctl.mc\"\nunits = [2]\n[[task]]\nname = \"act1\"\nfile = \"act.mc\"\nunits = [0]\n[[task]]\nname = \"sense2\"\nfile = \"sense.mc\"\nunits = [0]\n[[task]]\nname = \"ctl2\"\nfile = \"ctl.mc\"\nunits = [2]\n[[task]]\nname = \"act2\"\nfile = \"act.mc\"\nunits = [3]\n[[task]]\nname = \"sense3\"\nfile = \"sense.mc\"\nunits = [3]\n[[task]]\nname = \"ctl3\"\nfile = \"ctl.mc\"\nunits = [1]\n[[task]]\nname = \"act3\"\nfile = \"act.mc\"\nunits = [2]\n[[transaction]]\nname = \"t0\"\nperiod = 100\ndeadline = 100\ntasks = [\"sense0\", \"ctl0\", \"act0\"]\n[[transaction]]\nname = \"t1\"\nperiod = 100\ndeadline = 100\ntasks = [\"sense1\", \"ctl1\", \"act1\"]\n[[transaction]]\nname = \"t2\"\nperiod = 200\ndeadline = 200\ntasks = [\"sense2\", \"ctl2\", \"act2\"]\n[[transaction]]\nname = \"t3\"\nperiod = 200\ndeadline = 200\ntasks = [\"sense3\", \"ctl3\", \"act3\"]\n[[edge]]\nfrom = \"sense0.y\"\nto = \"ctl0.m\"\n[[edge]]\nfrom = \"ctl0.u\"\nto = \"act0.u\"\n[[edge]]\nfrom = \"sense1.y\"\nto = \"ctl1.m\"\n[[edge]]\nfrom = \"ctl1.u\"\nto = \"act1.u\"\n[[edge]]\nfrom = \"sense2.y\"\nto = \"ctl2.m\"\n[[edge]]\nfrom = \"ctl2.u\"\nto = \"act2.u\"\n[[edge]]\nfrom = \"sense3.y\"\nto = \"ctl3.m\"\n[[edge]]\nfrom = \"ctl3.u\"\nto = \"act3.u\"\n[[sensor]]\nname = \"s0\"\nto = \"sense0.x\"\n[[sensor]]\nname = \"s1\"\nto = \"sense1.x\"\n[[sensor]]\nname = \"s2\"\nto = \"sense2.x\"\n[[sensor]]\nname = \"s3\"\nto = \"sense3.x\"\n[[actuator]]\nname = \"v0\"\nfrom = \"act0.p\"\n[[actuator]]\nname = \"v1\"\nfrom = \"act1.p\"\n[[actuator]]\nname = \"v2\"\nfrom = \"act2.p\"\n[[actuator]]\nname = \"v3\"\nfrom = \"act3.p\"\n";

// The text of its tables up to the messages.
const PLANT_JOBS: &str =
    "cluster units 4 slot_words 8 precision 2 cycles_per_tick 40 round 100 cycle 200\ntask sense0 unit 1 maxt 156\ntask ctl0 unit 3 maxt 51\ntask act0 unit 0 maxt 14\ntask sense1 unit 2 maxt 156\ntask ctl1 unit 2 maxt 51\ntask act1 unit 0 maxt 14\ntask sense2 unit 0 maxt 156\ntask ctl2 unit 2 maxt 51\ntask act2 unit 3 maxt 14\ntask sense3 unit 3 maxt 156\ntask ctl3 unit 1 maxt 51\ntask act3 unit 2 maxt 14\njob sense0 0 unit 1 start 0 end 4\njob sense0 1 unit 1 start 100 end 104\njob ctl0 0 unit 3 start 40 end 42\njob ctl0 1 unit 3 start 140 end 142\njob act0 0 unit 0 start 80 end 81\njob act0 1 unit 0 start 180 end 181\njob sense1 0 unit 2 start 0 end 4\njob sense1 1 unit 2 start 100 end 104\njob ctl1 0 unit 2 start 4 end 6\njob ctl1 1 unit 2 start 104 end 106\njob act1 0 unit 0 start 60 end 61\njob act1 1 unit 0 start 160 end 161\njob sense2 0 unit 0 start 0 end 4\njob ctl2 0 unit 2 start 120 end 122\njob act2 0 unit 3 start 160 end 161\njob sense3 0 unit 3 start 0 end 4\njob ctl3 0 unit 1 start 80 end 82\njob act3 0 unit 2 start 140 end 141\n";

// What `plan p.toml BUDGET` answers where the project has this text: its status, how its text begins, and the line.
fn answers(
    alloc: Global,
    project: &str,
    budget: &str,
    status: u8,
    text: &str,
    line: &str,
) -> Result<bool, Fail> {
    let mut shelf = MemShelf::new(alloc, Vec::new(alloc));
    for (name, bytes) in [
        ("p.toml", project.as_bytes()),
        ("inc.mc", b"task inc; in a; out y; body { y = a + 1; }"),
        ("wide.mc", b"task inc; in a[16]; out y; body { y = a[0]; }"),
        ("bad.mc", b"task t; @"),
        ("sense.mc", SENSE),
        ("ctl.mc", CTL),
        ("act.mc", ACT),
    ] {
        if shelf.put_file(name, bytes).is_err() {
            return Ok(false);
        }
    }
    let mut source = MemSource::new(Vec::new(alloc), Vec::new(alloc));
    let mut out = MemSink::new(alloc, 4096, Vec::new(alloc)).map_err(|_| "memory")?;
    let mut err = MemSink::new(alloc, 4096, Vec::new(alloc)).map_err(|_| "memory")?;
    let words = vec![in alloc;
        String::from_str(alloc, "plan")?,
        String::from_str(alloc, "p.toml")?,
        String::from_str(alloc, budget)?,
    ]?;
    let got = mars(alloc, &words, &mut shelf, &mut source, &mut out, &mut err);
    let begins = out.bytes().starts_with(text.as_bytes());
    let is_told = status == 0 || out.bytes().is_empty();
    Ok(got == status && begins && is_told && err.bytes() == line.as_bytes())
}

// Tables, budgets and projects without a table.
#[test]
fn tables_of_projects(rt: HostRuntime) -> Result<(), Fail> {
    let alloc = rt.alloc();
    for (project, old, new, budget, status, text, line) in [
        (
            TWO,
            "[cluster]",
            "[cluster]",
            "10",
            0,
            "cluster units 2 slot_words 2 precision 1 cycles_per_tick 7 round 12 cycle 24\ntask a unit 0 maxt 7\ntask b unit 1 maxt 7\njob a 0 unit 0 start 0 end 1\njob b 0 unit 1 start 18 end 19\nmessage 0 0 unit 0 round 1 offset 0\n",
            "",
        ),
        (
            SHARED,
            "[cluster]",
            "[cluster]",
            "3",
            0,
            "cluster units 1 slot_words 2 precision 1 cycles_per_tick 1 round 6 cycle 18\ntask p unit 0 maxt 7\ntask q unit 0 maxt 7\njob p 0 unit 0 start 0 end 7\njob q 0 unit 0 start 7 end 14\n",
            "",
        ),
        (
            SHARED,
            "[cluster]",
            "[cluster]",
            "2",
            4,
            "",
            "mars: budget 2 spent\n",
        ),
        (
            SHARED,
            "deadline = 14",
            "deadline = 13",
            "5",
            5,
            "",
            "mars: no table\n",
        ),
        (
            SHARED,
            "deadline = 14",
            "deadline = 13",
            "4",
            4,
            "",
            "mars: budget 4 spent\n",
        ),
        (
            FREE,
            "[cluster]",
            "[cluster]",
            "00000006",
            0,
            "cluster units 2 slot_words 2 precision 1 cycles_per_tick 1 round 12 cycle 24\ntask p unit 1 maxt 7\ntask q unit 0 maxt 7\njob p 0 unit 1 start 0 end 7\njob q 0 unit 0 start 0 end 7\n",
            "",
        ),
        (
            FREE,
            "[cluster]",
            "[cluster]",
            "5",
            4,
            "",
            "mars: budget 5 spent\n",
        ),
        (PLANT, "[cluster]", "[cluster]", "19", 0, PLANT_JOBS, ""),
        (
            PLANT,
            "[cluster]",
            "[cluster]",
            "18",
            4,
            "",
            "mars: budget 18 spent\n",
        ),
        (FREE, "[cluster]", "[cluster]", "0", 2, "", "mars: usage\n"),
        (
            FREE,
            "[cluster]",
            "[cluster]",
            "10000001",
            2,
            "",
            "mars: usage\n",
        ),
        (
            FREE,
            "[cluster]",
            "[cluster]",
            "000000006",
            2,
            "",
            "mars: usage\n",
        ),
    ] {
        let project = project.replace(alloc, old, new)?;
        assert!(rt;
            answers(alloc, project.as_str(), budget, status, text, line)?,
            "{line} {text}"
        );
    }
    Ok(())
}

// Each fault with its line, in the one order: rules of the file, then the tasks' files, then rules of ports, then limits.
#[test]
fn faults_of_projects(rt: HostRuntime) -> Result<(), Fail> {
    let alloc = rt.alloc();
    for (project, old, new, status, line) in [
        (ONE, "[cluster]", "[cluster", 3, "mars: p.toml: not toml\n"),
        (
            ONE,
            "deadline = 6",
            "deadline = 7",
            3,
            "mars: p.toml: transaction 0: deadline above period\n",
        ),
        (
            ONE,
            "period = 6",
            "period = 65535",
            3,
            "mars: p.toml: cycle of 131070 ticks\n",
        ),
        (
            ONE,
            "cycles_per_tick = 7\n[[task]]\nname = \"inc\"\nfile = \"inc.mc\"\nunits = [0]\n[[transaction]]\nname = \"t\"\nperiod = 6\ndeadline = 6",
            "cycles_per_tick = 7\nround = 600\n[[task]]\nname = \"inc\"\nfile = \"inc.mc\"\nunits = [0]\n[[transaction]]\nname = \"t\"\nperiod = 1\ndeadline = 1",
            3,
            "mars: p.toml: 600 jobs\n",
        ),
        (
            ONE,
            "cycles_per_tick = 7\n[[task]]\nname = \"inc\"\nfile = \"inc.mc\"\nunits = [0]\n[[transaction]]\nname = \"t\"\nperiod = 6\ndeadline = 6",
            "cycles_per_tick = 7\nround = 300\n[[task]]\nname = \"inc\"\nfile = \"wide.mc\"\nunits = [0]\n[[transaction]]\nname = \"t\"\nperiod = 1\ndeadline = 1",
            3,
            "mars: p.toml: 4800 sensor words\n",
        ),
        (
            ONE,
            "inc.a",
            "inc.b",
            3,
            "mars: p.toml: sensor 0: unknown port\n",
        ),
        (
            ONE,
            "inc.mc\"\nunits = [0]",
            "bad.mc\"\nunits = [1]",
            3,
            "mars: p.toml: task 0: unknown unit\n",
        ),
        (TWO, "inc.mc", "bad.mc", 3, "mars: bad.mc: 8: bad byte\n"),
        (
            TWO,
            "inc.mc\"\nunits = [1]",
            "none.mc\"\nunits = [1]",
            6,
            "mars: read fault: none.mc\n",
        ),
        (
            TWO,
            "[[edge]]\nfrom = \"a.y\"\nto = \"b.a\"\n",
            "",
            3,
            "mars: p.toml: task 1: port never fed\n",
        ),
        (
            TWO,
            "b.y",
            "b.z",
            3,
            "mars: p.toml: actuator 0: unknown port\n",
        ),
        (
            TWO,
            "inc.mc\"\nunits = [1]",
            "wide.mc\"\nunits = [1]",
            3,
            "mars: p.toml: edge 0: width differs\n",
        ),
    ] {
        let project = project.replace(alloc, old, new)?;
        assert!(rt;
            answers(alloc, project.as_str(), "10", status, "", line)?,
            "{line}"
        );
    }
    Ok(())
}
