//! Worked rows of the command `task`, over the outside in memory.
use mars_base::{
    BinOp, MemShelf, MemSink, MemSource, Source, Steps, Text, UnOp, Words, binary, least_round,
    unary,
};
use mars_top::{Fault, ImageBad, Place, ProjectKind, Refusal, Section, mars, say, status};
use stages::{print_text, read_file, write_file};
use std::alloc::Global;
use std::test::Fail;

const INC: &[u8] = b"task inc; in a; out y; body { y = a + 1; }\n";

const MIX: &[u8] =
    b"task mix; in a; in b; out s; out d; body { s = a * b - 3; d = (a - b) * (a + b); }\n";

const COMMENT: &[u8] = b"task inc; in a; out y; body { y = a + 1; /* one more */ }\n";

#[test]
fn rows(rt: HostRuntime) -> Result<(), Fail> {
    let alloc = rt.alloc();
    for (first, second, input, status, text, line) in [
        (
            "task",
            "inc.mc",
            "41\n",
            0,
            "42\ntask inc maxt 7 seen 7\n",
            "",
        ),
        (
            "task",
            "inc.mc",
            "2147483647\n",
            0,
            "-2147483648\ntask inc maxt 7 seen 7\n",
            "",
        ),
        ("task", "inc.mc", "", 0, "task inc maxt 7 seen 0\n", ""),
        (
            "task",
            "mix.mc",
            "5 -2\r\n 7\t0",
            0,
            "-13 21\n-3 49\ntask mix maxt 29 seen 29\n",
            "",
        ),
        (
            "task",
            "inc.mc",
            "1\n7 x\n2\n",
            8,
            "2\n",
            "mars: bad input line 2\n",
        ),
        (
            "task",
            "inc.mc",
            "2147483648\n",
            8,
            "",
            "mars: bad input line 1\n",
        ),
        (
            "task",
            "comment.mc",
            "1\n",
            0,
            "2\ntask inc maxt 7 seen 7\n",
            "",
        ),
        ("task", "none.mc", "", 6, "", "mars: read fault: none.mc\n"),
        ("run", "p1.img", "", 2, "", "mars: usage\n"),
    ] {
        let mut shelf = MemShelf::new(alloc, Vec::new(alloc));
        assert!(rt; shelf.put_file("inc.mc", INC).is_ok());
        assert!(rt; shelf.put_file("mix.mc", MIX).is_ok());
        assert!(rt; shelf.put_file("comment.mc", COMMENT).is_ok());
        let mut source = MemSource::new(Vec::from_slice(alloc, input.as_bytes())?, Vec::new(alloc));
        let mut out = MemSink::new(alloc, 4096, Vec::new(alloc)).map_err(|_| "memory")?;
        let mut err = MemSink::new(alloc, 4096, Vec::new(alloc)).map_err(|_| "memory")?;
        let words = vec![in alloc;
            String::from_str(alloc, first)?,
            String::from_str(alloc, second)?,
        ]?;
        let got = mars(alloc, &words, &mut shelf, &mut source, &mut out, &mut err);
        assert_eq!(rt; got, status, "{second} {input}");
        assert_eq!(rt; out.bytes(), text.as_bytes(), "{second} {input}");
        assert_eq!(rt; err.bytes(), line.as_bytes(), "{second} {input}");
    }
    Ok(())
}

// Whether a file `t.mc` of this text, run over this input, has this status, output and error output.
fn answers(
    alloc: Global,
    text: &[u8],
    input: &[u8],
    status: u8,
    out_text: &[u8],
    line: &[u8],
) -> Result<bool, Fail> {
    let mut shelf = MemShelf::new(alloc, Vec::new(alloc));
    if shelf.put_file("t.mc", text).is_err() {
        return Ok(false);
    }
    let mut source = MemSource::new(Vec::from_slice(alloc, input)?, Vec::new(alloc));
    let mut out = MemSink::new(alloc, 4096, Vec::new(alloc)).map_err(|_| "memory")?;
    let mut err = MemSink::new(alloc, 4096, Vec::new(alloc)).map_err(|_| "memory")?;
    let words = vec![in alloc;
        String::from_str(alloc, "task")?,
        String::from_str(alloc, "t.mc")?,
    ]?;
    let got = mars(alloc, &words, &mut shelf, &mut source, &mut out, &mut err);
    Ok(got == status && out.bytes() == out_text && err.bytes() == line)
}

// Each form of the language: what it writes, and its greatest cycles.
#[test]
fn whole_language(rt: HostRuntime) -> Result<(), Fail> {
    let alloc = rt.alloc();
    for (text, input, status, out, line) in [
        (
            "task count; in n; out y; body { y = 0; while max 3 (y < n) { y = y + 1; } }",
            "3\n",
            0,
            "3\ntask count maxt 60 seen 60\n",
            "",
        ),
        (
            "task count; in n; out y; body { y = 0; while max 3 (y < n) { y = y + 1; } }",
            "4\n",
            11,
            "broken 0 count 0\n",
            "mars: broken\n",
        ),
        (
            "task deep; in x; out y; body { var j; scope M max 1000 { while max 60000 (x) { while max 30 (j) { if (x) { mark M; y = x / 3; } } } } }",
            "0\n",
            0,
            "0\ntask deep maxt 20539007 seen 7\n",
            "",
        ),
        (
            "task nopath; in x; out y; body { scope M max 0 { mark M; } }",
            "1\n",
            3,
            "",
            "mars: t.mc: no path\n",
        ),
        (
            "task trap; in x; out y; body { scope M max 0 { if (x) { y = 1 / x; mark M; } } y = x; }",
            "0\n5\n",
            11,
            "0\nbroken 1 trap 0\n",
            "mars: broken\n",
        ),
        (
            "task seq; in x; out y; body { sequence max 12 { while max 10 (x) { y = y + 1; } while max 10 (x) { y = y / 3; } } }",
            "0\n",
            0,
            "0\ntask seq maxt 302 seen 12\n",
            "",
        ),
        (
            "task both; out y; body { y = 1 / 0 && 0; }",
            "\n",
            11,
            "broken 0 both 0\n",
            "mars: broken\n",
        ),
        (
            "task again; in x; out y; body { var i; while max 3 (i < x) { scope M max 1 { mark M; y = y + 1; } i = i + 1; } }",
            "3\n",
            0,
            "3\ntask again maxt 84 seen 84\n",
            "",
        ),
        (
            "task deep1; in x; out y; body { var j; scope M max 10 { while max 60 (x) { while max 30 (j) { if (x) { mark M; y = x / 3; } } } } }",
            "0\n",
            0,
            "0\ntask deep1 maxt 20717 seen 7\n",
            "",
        ),
        (
            "task fold; in x; out y; body { y = x + 2 * 3 - -4; }",
            "1\n",
            0,
            "11\ntask fold maxt 9 seen 9\n",
            "",
        ),
        (
            "task swap; out y; body { y = 0 && 1 / 0; }",
            "\n",
            11,
            "broken 0 swap 0\n",
            "mars: broken\n",
        ),
        (
            "task far; in x; out y; body { while max 65535 (x) { while max 65535 (x) { } } }",
            "1\n",
            3,
            "",
            "mars: t.mc: maxt too long\n",
        ),
    ] {
        let meets = answers(
            alloc,
            text.as_bytes(),
            input.as_bytes(),
            status,
            out.as_bytes(),
            line.as_bytes(),
        )?;
        assert!(rt; meets, "{text} {input}");
    }
    Ok(())
}

// Faults of sources, each by its line.
#[test]
fn source_faults(rt: HostRuntime) -> Result<(), Fail> {
    let alloc = rt.alloc();
    for (text, line) in [
        ("task t;", "mars: t.mc: 7-7: no body\n"),
        ("task t; @", "mars: t.mc: 8: bad byte\n"),
        ("task t", "mars: t.mc: syntax at token 2\n"),
        (
            "task t; out y; body { y = ; }",
            "mars: t.mc: syntax at token 10\n",
        ),
        (
            "task t; out y[17]; body { }",
            "mars: t.mc: 14-16: wrong width\n",
        ),
        (
            "task t; out y; in y; body { }",
            "mars: t.mc: 18-19: twice named\n",
        ),
        (
            "task t; out y; body { y = z; }",
            "mars: t.mc: 26-27: unknown name\n",
        ),
        (
            "task t; out y; body { y[0] = 1; }",
            "mars: t.mc: 22-23: not an array\n",
        ),
        (
            "task t; out y; body { y = 2147483648; }",
            "mars: t.mc: 26-36: constant out of range\n",
        ),
        (
            "task t; out y; body { mark M; }",
            "mars: t.mc: 27-28: mark outside its scope\n",
        ),
        (
            "task t; out y; body { while max 0 (y) { } }",
            "mars: t.mc: 32-33: zero bound\n",
        ),
        (
            "task t; out y; body { scope M max 1024 { } }",
            "mars: t.mc: 34-38: bound too large\n",
        ),
        (
            "task t; out y; body { sequence max 2 { y = 1; } }",
            "mars: t.mc: 39-45: not a loop\n",
        ),
        (
            "task r; in x; out y; func f(a) { var b; b = f(a); return b; } body { y = f(x); }",
            "mars: t.mc: 44-45: recursion\n",
        ),
    ] {
        let meets = answers(alloc, text.as_bytes(), b"1\n", 3, b"", line.as_bytes())?;
        assert!(rt; meets, "{text}");
    }
    Ok(())
}

// 86 statements of 767 instructions each, and the halt.
#[test]
fn long_code(rt: HostRuntime) -> Result<(), Fail> {
    let alloc = rt.alloc();
    let mut text = Vec::from_slice(alloc, b"task long; in a; out y; body {")?;
    for _ in 0..86 {
        text.extend_from_slice(b"y=a")?;
        for _ in 0..255 {
            text.extend_from_slice(b">a")?;
        }
        text.extend_from_slice(b";")?;
    }
    text.extend_from_slice(b"}")?;
    let line = b"mars: t.mc: code too long 65963\n";
    assert!(rt; answers(alloc, &text, b"1\n", 3, b"", line)?);
    Ok(())
}

#[test]
fn too_long(rt: HostRuntime) -> Result<(), Fail> {
    let alloc = rt.alloc();
    for (length, status, line) in [
        (65_536usize, 3, "mars: big.mc: syntax at token 0\n"),
        (65_537, 13, "mars: too long: big.mc\n"),
    ] {
        let mut shelf = MemShelf::new(alloc, Vec::new(alloc));
        let big = vec![in alloc; b' '; length]?;
        assert!(rt; shelf.put_file("big.mc", &big).is_ok());
        let mut source = MemSource::new(Vec::new(alloc), Vec::new(alloc));
        let mut out = MemSink::new(alloc, 64, Vec::new(alloc)).map_err(|_| "memory")?;
        let mut err = MemSink::new(alloc, 64, Vec::new(alloc)).map_err(|_| "memory")?;
        let words = vec![in alloc;
            String::from_str(alloc, "task")?,
            String::from_str(alloc, "big.mc")?,
        ]?;
        let got = mars(alloc, &words, &mut shelf, &mut source, &mut out, &mut err);
        assert_eq!(rt; got, status, "{length}");
        assert_eq!(rt; out.bytes(), b"".as_slice());
        assert_eq!(rt; err.bytes(), line.as_bytes());
    }
    Ok(())
}

#[test]
fn faults(rt: HostRuntime) -> Result<(), Fail> {
    let alloc = rt.alloc();
    // Which call of the shelf, the input and the output fails; 9 is none of them.
    for (reads, input, puts, status, text, line) in [
        (0u64, 9u64, 9u64, 6, "", "mars: read fault: inc.mc\n"),
        (9, 0, 9, 6, "", "mars: read fault: input\n"),
        (9, 1, 9, 6, "42\n", "mars: read fault: input\n"),
        (9, 9, 0, 7, "", "mars: write fault: output\n"),
        (9, 9, 1, 7, "42\n", "mars: write fault: output\n"),
    ] {
        let mut shelf = MemShelf::new(alloc, vec![in alloc; reads]?);
        assert!(rt; shelf.put_file("inc.mc", INC).is_ok());
        let mut source = MemSource::new(Vec::from_slice(alloc, b"41\n")?, vec![in alloc; input]?);
        let mut out = MemSink::new(alloc, 4096, vec![in alloc; puts]?).map_err(|_| "memory")?;
        let mut err = MemSink::new(alloc, 4096, Vec::new(alloc)).map_err(|_| "memory")?;
        let words = vec![in alloc;
            String::from_str(alloc, "task")?,
            String::from_str(alloc, "inc.mc")?,
        ]?;
        let got = mars(alloc, &words, &mut shelf, &mut source, &mut out, &mut err);
        assert_eq!(rt; got, status, "{reads} {input} {puts}");
        assert_eq!(rt; out.bytes(), text.as_bytes());
        assert_eq!(rt; err.bytes(), line.as_bytes());
    }
    Ok(())
}

// A name for a refusal's line.
fn name(alloc: Global) -> Result<Text, Fail> {
    Ok(Text::from_slice(alloc, b"f").map_err(|_| "memory")?)
}

// Whether a refusal has this status and puts this line.
fn says(alloc: Global, refusal: Refusal, number: u8, line: &[u8]) -> Result<bool, Fail> {
    let answer = Err(refusal);
    let mut err = MemSink::new(alloc, 4096, Vec::new(alloc)).map_err(|_| "memory")?;
    say(&mut err, &answer);
    Ok(status(&answer) == number && err.bytes() == line)
}

#[test]
fn lines_of_refusals(rt: HostRuntime) -> Result<(), Fail> {
    let a = rt.alloc();
    assert!(rt; says(a, Refusal::Memory, 1, b"mars: no memory\n")?);
    assert!(rt; says(a, Refusal::Usage, 2, b"mars: usage\n")?);
    assert!(rt; says(a, Refusal::Spent(40), 4, b"mars: budget 40 spent\n")?);
    assert!(rt; says(a, Refusal::NoTable, 5, b"mars: no table\n")?);
    assert!(rt; says(a, Refusal::ReadFault(None), 6, b"mars: read fault: input\n")?);
    assert!(rt;
        says(
            a,
            Refusal::WriteFault(None),
            7,
            b"mars: write fault: output\n"
        )?
    );
    assert!(rt;
        says(
            a,
            Refusal::BadInput(1_000_001),
            8,
            b"mars: bad input line 1000001\n"
        )?
    );
    assert!(rt; says(a, Refusal::BadScript(3), 9, b"mars: bad script line 3\n")?);
    assert!(rt; says(a, Refusal::Broken, 11, b"mars: broken\n")?);
    assert!(rt; says(a, Refusal::Lost, 12, b"mars: lost\n")?);
    assert!(rt;
        says(
            a,
            Refusal::ReadFault(Some(name(a)?)),
            6,
            b"mars: read fault: f\n"
        )?
    );
    assert!(rt;
        says(
            a,
            Refusal::WriteFault(Some(name(a)?)),
            7,
            b"mars: write fault: f\n"
        )?
    );
    assert!(rt;
        says(
            a,
            Refusal::TooLong(Some(name(a)?)),
            13,
            b"mars: too long: f\n"
        )?
    );
    Ok(())
}

#[test]
fn lines_of_faults(rt: HostRuntime) -> Result<(), Fail> {
    let a = rt.alloc();
    let byte = Refusal::BadImage(ImageBad::Byte(17));
    assert!(rt; says(a, byte, 10, b"mars: bad image: byte 17\n")?);
    let net = Refusal::BadImage(ImageBad::Net);
    assert!(rt; says(a, net, 10, b"mars: bad image: net\n")?);
    let code = Refusal::BadImage(ImageBad::Code(2));
    assert!(rt; says(a, code, 10, b"mars: bad image: code of task 2\n")?);
    let table = Refusal::BadImage(ImageBad::Table(8));
    assert!(rt; says(a, table, 10, b"mars: bad image: table rule 8\n")?);
    let toml = Refusal::Fault(Fault::NotToml { project: name(a)? });
    assert!(rt; says(a, toml, 3, b"mars: f: not toml\n")?);
    let project = Refusal::Fault(Fault::Project {
        project: name(a)?,
        place: Place {
            section: Section::Transaction,
            entry: 2,
        },
        kind: ProjectKind::DeadlineAbovePeriod,
    });
    assert!(rt;
        says(
            a,
            project,
            3,
            b"mars: f: transaction 2: deadline above period\n"
        )?
    );
    let cycle = Refusal::Fault(Fault::Cycle {
        project: name(a)?,
        ticks: 131_070,
    });
    assert!(rt; says(a, cycle, 3, b"mars: f: cycle of 131070 ticks\n")?);
    let jobs = Refusal::Fault(Fault::Jobs {
        project: name(a)?,
        count: 513,
    });
    assert!(rt; says(a, jobs, 3, b"mars: f: 513 jobs\n")?);
    let words = Refusal::Fault(Fault::SensorWords {
        project: name(a)?,
        count: 70_000,
    });
    assert!(rt; says(a, words, 3, b"mars: f: 70000 sensor words\n")?);
    Ok(())
}

// The status of a read of these bytes; 0 where it gave them.
fn reads_abc(alloc: Global, shelf: &mut MemShelf, name: &str, limit: u64) -> u8 {
    match read_file(alloc, shelf, name, limit) {
        Ok(bytes) => u8::from(bytes.as_slice() != b"abc".as_slice()),
        Err(refused) => {
            let answer = Err(refused);
            status(&answer)
        }
    }
}

#[test]
fn files_and_text(rt: HostRuntime) -> Result<(), Fail> {
    let alloc = rt.alloc();
    let mut shelf = MemShelf::new(alloc, Vec::new(alloc));
    assert!(rt; write_file(alloc, &mut shelf, "i", b"abc").is_ok());
    for (name, limit, wanted) in [("i", 3, 0), ("i", 2, 13), ("j", 2, 6)] {
        assert_eq!(rt; reads_abc(alloc, &mut shelf, name, limit), wanted);
    }
    let mut out = MemSink::new(alloc, 64, Vec::new(alloc)).map_err(|_| "memory")?;
    assert!(rt; print_text(&mut out, b"maxt a 7\n").is_ok());
    assert_eq!(rt; out.bytes(), b"maxt a 7\n".as_slice());
    Ok(())
}

#[test]
fn operators(rt: HostRuntime) -> Result<(), Fail> {
    for (op, left, right, word) in [
        (BinOp::Or, 0, -4, Some(1)),
        (BinOp::And, 2, 4, Some(1)),
        (BinOp::BitOr, 12, 10, Some(14)),
        (BinOp::BitXor, 12, 10, Some(6)),
        (BinOp::BitAnd, 12, 10, Some(8)),
        (BinOp::Eq, 3, 3, Some(1)),
        (BinOp::Ne, 3, 3, Some(0)),
        (BinOp::Lt, -1, 0, Some(1)),
        (BinOp::Le, 1, 0, Some(0)),
        (BinOp::Gt, 1, 0, Some(1)),
        (BinOp::Ge, -1, 0, Some(0)),
        (BinOp::Shl, 1, 33, Some(2)),
        (BinOp::Shr, -5, 1, Some(-3)),
        (BinOp::Add, i32::MAX, 1, Some(i32::MIN)),
        (BinOp::Sub, i32::MIN, 1, Some(i32::MAX)),
        (BinOp::Mul, 65_536, 32_768, Some(i32::MIN)),
        (BinOp::Div, -7, 2, Some(-3)),
        (BinOp::Div, i32::MIN, -1, Some(i32::MIN)),
        (BinOp::Div, 7, 0, None),
        (BinOp::Rem, -7, 2, Some(-1)),
        (BinOp::Rem, i32::MIN, -1, Some(0)),
        (BinOp::Rem, 7, 0, None),
    ] {
        assert_eq!(rt; binary(op, left, right), word, "{op:?} {left} {right}");
    }
    for (op, right, word) in [
        (UnOp::Neg, i32::MIN, i32::MIN),
        (UnOp::Not, 0, 1),
        (UnOp::Not, 7, 0),
        (UnOp::Inv, 5, -6),
    ] {
        assert_eq!(rt; unary(op, right), word, "{op:?} {right}");
    }
    // Three units, slots of four words and two idle ticks: six slots of six ticks.
    assert_eq!(rt; least_round(3, 4, 2), 36);
    Ok(())
}

#[test]
fn ground(rt: HostRuntime) -> Result<(), Fail> {
    let alloc = rt.alloc();
    let text = Text::from_slice(alloc, b"inc").map_err(|_| "memory")?;
    assert_eq!(rt; text.as_slice(), b"inc".as_slice());
    assert_eq!(rt; text.len(), 3);
    assert!(rt; Text::from_vec(Vec::new(alloc)).is_empty());
    let words = Words::from_slice(alloc, &[4, -7]).map_err(|_| "memory")?;
    assert_eq!(rt; words.as_slice(), [4, -7].as_slice());
    assert!(rt; Words::from_vec(Vec::new(alloc)).as_slice().is_empty());
    let mut steps = Steps::new();
    steps.tick();
    steps.tick();
    assert_eq!(rt; steps.taken(), 2);
    let mut source = MemSource::new(Vec::from_slice(alloc, b"41\n")?, Vec::new(alloc));
    let mut room = [0u8; 2];
    assert!(rt; matches!(source.read(&mut room), Ok(2)));
    assert_eq!(rt; room.as_slice(), b"41".as_slice());
    assert_eq!(rt; source.rest(), b"\n".as_slice());
    let mut shelf = MemShelf::new(alloc, Vec::new(alloc));
    assert!(rt; shelf.put_file("a", b"1").is_ok());
    assert!(rt; shelf.put_file("a", b"2").is_ok());
    assert!(rt;
        shelf
            .file("a")
            .is_some_and(|bytes| bytes == b"2".as_slice())
    );
    assert!(rt; shelf.file("b").is_none());
    Ok(())
}
