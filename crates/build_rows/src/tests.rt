//! Worked rows of the command `build`, over the outside in memory.
use mars_base::{MemShelf, MemSink, MemSource};
use mars_top::{Refusal, build, mars};
use std::alloc::Global;
use std::test::Fail;

// One task of one unit, fed by a sensor.
const ONE: &str =
    "[cluster]\nunits = 1\nslot_words = 2\nprecision = 1\ncycles_per_tick = 7\n[[task]]\nname = \"inc\"\nfile = \"inc.mc\"\nunits = [0]\n[[transaction]]\nname = \"t\"\nperiod = 6\ndeadline = 6\ntasks = [\"inc\"]\n[[sensor]]\nname = \"s\"\nto = \"inc.a\"\n[[actuator]]\nname = \"v\"\nfrom = \"inc.y\"\n";

// Two tasks of two units, joined by an edge.
const TWO: &str =
    "[cluster]\nunits = 2\nslot_words = 2\nprecision = 1\ncycles_per_tick = 7\n[[task]]\nname = \"a\"\nfile = \"inc.mc\"\nunits = [0]\n[[task]]\nname = \"b\"\nfile = \"inc.mc\"\nunits = [1]\n[[transaction]]\nname = \"t\"\nperiod = 24\ndeadline = 24\ntasks = [\"a\", \"b\"]\n[[edge]]\nfrom = \"a.y\"\nto = \"b.a\"\n[[sensor]]\nname = \"s\"\nto = \"a.a\"\n[[actuator]]\nname = \"v\"\nfrom = \"b.y\"\n";

// The image of one task of one unit.
const ONE_IMAGE: [u8; 113] = [
    0x4d, 0x41, 0x52, 0x53, 0x01, 0x01, 0x02, 0x01, 0x00, 0x07, 0x00, 0x00, 0x00, 0x06, 0x01, 0x03,
    0x69, 0x6e, 0x63, 0x00, 0x01, 0x00, 0x00, 0x00, 0x07, 0x00, 0x02, 0x00, 0x00, 0x00, 0x02, 0x00,
    0x00, 0x01, 0x01, 0x00, 0x01, 0x01, 0x00, 0x00, 0x00, 0x05, 0x01, 0x00, 0x00, 0x00, 0x00, 0x00,
    0x00, 0x01, 0x00, 0x00, 0x00, 0x01, 0x05, 0x02, 0x00, 0x00, 0x00, 0x00, 0x02, 0x01, 0x00, 0x00,
    0x00, 0x01, 0x1b, 0x00, 0x00, 0x00, 0x00, 0x00, 0x01, 0x01, 0x74, 0x00, 0x00, 0x00, 0x06, 0x00,
    0x00, 0x00, 0x06, 0x00, 0x00, 0x00, 0x01, 0x01, 0x73, 0x00, 0x00, 0x00, 0x01, 0x01, 0x76, 0x00,
    0x00, 0x00, 0x01, 0x00, 0x00, 0x00, 0x00, 0x00, 0x00, 0x00, 0x00, 0x00, 0x00, 0x00, 0x01, 0x00,
    0x00,
];

// The image of two tasks of two units.
const TWO_IMAGE: [u8; 190] = [
    0x4d, 0x41, 0x52, 0x53, 0x01, 0x02, 0x02, 0x01, 0x00, 0x07, 0x00, 0x00, 0x00, 0x0c, 0x02, 0x01,
    0x61, 0x00, 0x01, 0x00, 0x00, 0x00, 0x07, 0x00, 0x02, 0x00, 0x00, 0x00, 0x02, 0x00, 0x00, 0x01,
    0x01, 0x00, 0x01, 0x01, 0x00, 0x00, 0x00, 0x05, 0x01, 0x00, 0x00, 0x00, 0x00, 0x00, 0x00, 0x01,
    0x00, 0x00, 0x00, 0x01, 0x05, 0x02, 0x00, 0x00, 0x00, 0x00, 0x02, 0x01, 0x00, 0x00, 0x00, 0x01,
    0x1b, 0x00, 0x00, 0x00, 0x00, 0x00, 0x01, 0x62, 0x00, 0x02, 0x00, 0x00, 0x00, 0x07, 0x00, 0x02,
    0x00, 0x00, 0x00, 0x02, 0x00, 0x00, 0x01, 0x01, 0x00, 0x01, 0x01, 0x00, 0x00, 0x00, 0x05, 0x01,
    0x00, 0x00, 0x00, 0x00, 0x00, 0x00, 0x01, 0x00, 0x00, 0x00, 0x01, 0x05, 0x02, 0x00, 0x00, 0x00,
    0x00, 0x02, 0x01, 0x00, 0x00, 0x00, 0x01, 0x1b, 0x00, 0x00, 0x00, 0x00, 0x00, 0x01, 0x01, 0x74,
    0x00, 0x00, 0x00, 0x18, 0x00, 0x00, 0x00, 0x18, 0x00, 0x01, 0x00, 0x00, 0x01, 0x00, 0x00, 0x01,
    0x01, 0x73, 0x00, 0x00, 0x00, 0x01, 0x01, 0x76, 0x01, 0x00, 0x00, 0x02, 0x00, 0x00, 0x00, 0x00,
    0x00, 0x00, 0x00, 0x00, 0x00, 0x00, 0x00, 0x01, 0x01, 0x00, 0x00, 0x01, 0x00, 0x00, 0x00, 0x12,
    0x00, 0x00, 0x00, 0x13, 0x00, 0x01, 0x00, 0x00, 0x00, 0x00, 0x00, 0x00, 0x01, 0x00,
];

// What stands under the image's name.
#[derive(Clone, Copy)]
enum Stands {
    // No file.
    Nothing,
    // The image of one task of one unit.
    One,
    // The image of two tasks of two units.
    Two,
}

// Whether these bytes stand under the name.
fn is_there(shelf: &MemShelf, stands: Stands) -> bool {
    match (shelf.file("p.img"), stands) {
        (None, Stands::Nothing) => true,
        (Some(bytes), Stands::One) => bytes == ONE_IMAGE.as_slice(),
        (Some(bytes), Stands::Two) => bytes == TWO_IMAGE.as_slice(),
        _ => false,
    }
}

// What fails: the call of the shelf with this number, and the put with this number; 9 is none of them.
#[derive(Clone, Copy)]
struct Fails {
    call: u64,
    put: u64,
}

// What is expected: the status, the output, the error output, and what stands under the image's name.
#[derive(Clone, Copy)]
struct Expected<'a> {
    status: u8,
    text: &'a str,
    line: &'a str,
    stands: Stands,
}

const INC: &[u8] = b"task inc; in a; out y; body { y = a + 1; }";

// A shelf with this project, its task, and something else under the image's name if so wanted.
fn filled(alloc: Global, project: &str, call: u64, old: Option<&[u8]>) -> Result<MemShelf, Fail> {
    let mut shelf = MemShelf::new(alloc, vec![in alloc; call]?);
    shelf
        .put_file("p.toml", project.as_bytes())
        .map_err(|_| "memory")?;
    shelf.put_file("inc.mc", INC).map_err(|_| "memory")?;
    if let Some(bytes) = old {
        shelf.put_file("p.img", bytes).map_err(|_| "memory")?;
    }
    Ok(shelf)
}

// Whether the project and its task stay.
fn keeps(shelf: &MemShelf, project: &str) -> bool {
    let kept = shelf.file("inc.mc").is_some_and(|bytes| bytes == INC);
    kept && shelf
        .file("p.toml")
        .is_some_and(|bytes| bytes == project.as_bytes())
}

// Whether `build FILE BUDGET p.img` answers so, where p.toml has this text.
fn builds(
    alloc: Global,
    project: &str,
    words: [&str; 2],
    fails: Fails,
    expected: Expected<'_>,
) -> Result<bool, Fail> {
    let mut shelf = filled(alloc, project, fails.call, None)?;
    let mut source = MemSource::new(Vec::new(alloc), Vec::new(alloc));
    let mut out = MemSink::new(alloc, 4096, vec![in alloc; fails.put]?).map_err(|_| "memory")?;
    let mut err = MemSink::new(alloc, 4096, Vec::new(alloc)).map_err(|_| "memory")?;
    let words = vec![in alloc;
        String::from_str(alloc, "build")?,
        String::from_str(alloc, words[0])?,
        String::from_str(alloc, words[1])?,
        String::from_str(alloc, "p.img")?,
    ]?;
    let got = mars(alloc, &words, &mut shelf, &mut source, &mut out, &mut err);
    Ok(
        got == expected.status
            && out.bytes() == expected.text.as_bytes()
            && err.bytes() == expected.line.as_bytes()
            && is_there(&shelf, expected.stands)
            && keeps(&shelf, project),
    )
}

#[test]
fn images_of_projects(rt: HostRuntime) -> Result<(), Fail> {
    let alloc = rt.alloc();
    for (project, file, budget, call, put, status, text, line, stands) in [
        (
            ONE,
            "p.toml",
            "10",
            9u64,
            9u64,
            0,
            "maxt inc 7\nimage 113\n",
            "",
            Stands::One,
        ),
        (
            TWO,
            "p.toml",
            "10",
            9,
            9,
            0,
            "maxt a 7\nmaxt b 7\nimage 190\n",
            "",
            Stands::Two,
        ),
        (
            ONE,
            "p.toml",
            "1",
            9,
            9,
            4,
            "",
            "mars: budget 1 spent\n",
            Stands::Nothing,
        ),
        (
            ONE,
            "none.toml",
            "10",
            9,
            9,
            6,
            "",
            "mars: read fault: none.toml\n",
            Stands::Nothing,
        ),
        (
            ONE,
            "p.toml",
            "10",
            0,
            9,
            6,
            "",
            "mars: read fault: p.toml\n",
            Stands::Nothing,
        ),
        (
            ONE,
            "p.toml",
            "10",
            1,
            9,
            6,
            "",
            "mars: read fault: inc.mc\n",
            Stands::Nothing,
        ),
        (
            ONE,
            "p.toml",
            "10",
            2,
            9,
            7,
            "",
            "mars: write fault: p.img\n",
            Stands::Nothing,
        ),
        (
            ONE,
            "p.toml",
            "10",
            9,
            0,
            7,
            "",
            "mars: write fault: output\n",
            Stands::One,
        ),
        (
            ONE,
            "p.toml",
            "0",
            9,
            9,
            2,
            "",
            "mars: usage\n",
            Stands::Nothing,
        ),
    ] {
        let expected = Expected {
            status,
            text,
            line,
            stands,
        };
        assert!(rt;
            builds(
                alloc,
                project,
                [file, budget],
                Fails { call, put },
                expected
            )?,
            "{line}"
        );
    }
    Ok(())
}

// What `build p.toml BUDGET p.img` leaves under the image's name, where the call of the shelf with this number fails and
// something else stood there.
fn leaves(alloc: Global, budget: &str, call: u64, status: u8, bytes: &[u8]) -> Result<bool, Fail> {
    let mut shelf = filled(alloc, ONE, call, Some(b"old"))?;
    let mut source = MemSource::new(Vec::new(alloc), Vec::new(alloc));
    let mut out = MemSink::new(alloc, 64, Vec::new(alloc)).map_err(|_| "memory")?;
    let mut err = MemSink::new(alloc, 64, Vec::new(alloc)).map_err(|_| "memory")?;
    let words = vec![in alloc;
        String::from_str(alloc, "build")?,
        String::from_str(alloc, "p.toml")?,
        String::from_str(alloc, budget)?,
        String::from_str(alloc, "p.img")?,
    ]?;
    let got = mars(alloc, &words, &mut shelf, &mut source, &mut out, &mut err);
    Ok(got == status && shelf.file("p.img").is_some_and(|file| file == bytes) && keeps(&shelf, ONE))
}

// An older file stays where a build is refused before its write, and is replaced else.
#[test]
fn an_older_image(rt: HostRuntime) -> Result<(), Fail> {
    let alloc = rt.alloc();
    assert!(rt; leaves(alloc, "1", 9, 4, b"old")?);
    assert!(rt; leaves(alloc, "10", 0, 6, b"old")?);
    assert!(rt; leaves(alloc, "10", 1, 6, b"old")?);
    assert!(rt; leaves(alloc, "10", 9, 0, ONE_IMAGE.as_slice())?);
    Ok(())
}

// The call that gives an image's bytes and writes no file.
#[test]
fn bytes_of_projects(rt: HostRuntime) -> Result<(), Fail> {
    let alloc = rt.alloc();
    let mut shelf = filled(alloc, TWO, 9, None)?;
    let bytes = build(alloc, &mut shelf, "p.toml", 10).map_err(|_| "refused")?;
    assert_eq!(rt; bytes.as_slice(), TWO_IMAGE.as_slice());
    let spent = build(alloc, &mut shelf, "p.toml", 1);
    assert!(rt; matches!(spent, Err(Refusal::Spent(1))));
    let missing = build(alloc, &mut shelf, "q.toml", 10);
    assert!(rt; matches!(missing, Err(Refusal::ReadFault(Some(_)))));
    assert!(rt; keeps(&shelf, TWO));
    assert!(rt; shelf.file("p.img").is_none());
    Ok(())
}
