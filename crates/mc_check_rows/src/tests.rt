//! Sources with their first fault, and sources without one, written from the rules by hand.
use super::{fault_of, task_of};
use mars_base::Span;
use mc_tree::{Fault, Kind};
use std::alloc::Global;
use std::test::Fail;

/// A source, the kind of its first fault, and where that stands.
type Row = (&'static [u8], Kind, u32, u32);

/// One source, or a few, for each kind.
const KINDS: [Row; 34] = [
    (b"task t; out y; in y; body { }", Kind::TwiceNamed, 18, 19),
    (
        b"task t; out y; body { scope y max 1 { } }",
        Kind::TwiceNamed,
        28,
        29,
    ),
    (b"task t; out y; body { y = z; }", Kind::UnknownName, 26, 27),
    (b"task t; out y; body { z = 1; }", Kind::UnknownName, 22, 23),
    (
        b"task t; out y; body { y = f(1); }",
        Kind::UnknownName,
        26,
        27,
    ),
    (
        b"task t; out y; func f() { return 1; } body { y = f; } ",
        Kind::UnknownName,
        49,
        50,
    ),
    (
        b"task t; out y; body { scope M max 1 { y = M; } }",
        Kind::UnknownName,
        42,
        43,
    ),
    (
        b"task t; out y; body { y[0] = 1; }",
        Kind::NotAnArray,
        22,
        23,
    ),
    (
        b"task t; out y; in x; body { y = x[0]; }",
        Kind::NotAnArray,
        32,
        33,
    ),
    (
        b"task t; out y; state a[2]; body { y = a; }",
        Kind::IsAnArray,
        38,
        39,
    ),
    (
        b"task t; out y; state a[2]; body { a = 1; }",
        Kind::IsAnArray,
        34,
        35,
    ),
    (b"task t; out y[17]; body { }", Kind::WrongWidth, 14, 16),
    (
        b"task t; out y; state a[0]; body { }",
        Kind::WrongWidth,
        23,
        24,
    ),
    (
        b"task t; out y; body { var a[0]; y = 1; }",
        Kind::WrongWidth,
        28,
        29,
    ),
    (
        b"task t; out y; body { y = 2147483648; }",
        Kind::ConstantOutOfRange,
        26,
        36,
    ),
    (
        b"task r; in x; out y; func f(a) { var b; b = f(a); return b; } body { y = f(x); }",
        Kind::Recursion,
        44,
        45,
    ),
    (
        b"task t; out y; func f() { var b; b = g(); return b; } func g() { return 1; } body { y = f(); }",
        Kind::Recursion,
        37,
        38,
    ),
    (
        b"task t; out y; func f(a) { return a; } body { y = f(1, 2); }",
        Kind::WrongArgumentCount,
        50,
        51,
    ),
    (
        b"task t; out y; func f(a) { return a; } body { y = f(); }",
        Kind::WrongArgumentCount,
        50,
        51,
    ),
    (
        b"task t; out y; body { mark M; }",
        Kind::MarkOutsideItsScope,
        27,
        28,
    ),
    (
        b"task t; out y; body { scope M max 1 { scope N max 1 { mark M; } } }",
        Kind::MarkOutsideItsScope,
        59,
        60,
    ),
    (
        b"task t; out y; body { scope M max 9 { sequence max 2 { while max 3 (y) { mark M; } } } }",
        Kind::MarkOfAnOuterScope,
        78,
        79,
    ),
    (
        b"task t; out y; body { sequence max 2 { y = 1; } }",
        Kind::NotALoop,
        39,
        45,
    ),
    (
        b"task t; out y; body { sequence max 2 { if (y) { y = 1; } } }",
        Kind::NotALoop,
        39,
        56,
    ),
    (
        b"task t; out y; body { while max 0 (y) { } }",
        Kind::ZeroBound,
        32,
        33,
    ),
    (
        b"task t; out y; body { sequence max 0 { } }",
        Kind::ZeroBound,
        35,
        36,
    ),
    (
        b"task t; out y; body { while max 65536 (y) { } }",
        Kind::BoundTooLarge,
        32,
        37,
    ),
    (
        b"task t; out y; body { scope M max 1024 { } }",
        Kind::BoundTooLarge,
        34,
        38,
    ),
    (
        b"task t; out y; state a[4095]; state b; body { }",
        Kind::TooMany,
        36,
        37,
    ),
    (
        b"task t; state a[4096]; func f(p) { return p; } body { }",
        Kind::TooMany,
        30,
        31,
    ),
    (
        b"task t; in a; in b; in c; in d; in e; in f; in g; in h; out i; out j; out k; out l; out m; out n; out o; out p; out q; body { }",
        Kind::TooMany,
        116,
        117,
    ),
    (
        b"task t; func a() { return 1; } func b() { return 1; } func c() { return 1; } func d() { return 1; } func e() { return 1; } func f() { return 1; } func g() { return 1; } func h() { return 1; } func i() { return 1; } func j() { return 1; } func k() { return 1; } func l() { return 1; } func m() { return 1; } func n() { return 1; } func o() { return 1; } func p() { return 1; } func q() { return 1; } body { }",
        Kind::TooMany,
        381,
        382,
    ),
    (b"task t;", Kind::NoBody, 7, 7),
    (
        b"task t; out y; func f() { return 1; } ",
        Kind::NoBody,
        38,
        38,
    ),
];

/// Two rules at one place, or at places one after the other.
const PAIRS: [Row; 19] = [
    (
        b"task t; out y; state a[5000]; body { }",
        Kind::TooMany,
        21,
        22,
    ),
    (
        b"task t; out y; state a[4095]; state a; body { }",
        Kind::TwiceNamed,
        36,
        37,
    ),
    (
        b"task t; out y; body { sequence max 2 { z = 1; } }",
        Kind::UnknownName,
        39,
        40,
    ),
    (
        b"task t; out y; body { sequence max 2 { y[0] = 1; } }",
        Kind::NotAnArray,
        39,
        40,
    ),
    (
        b"task t; out y; state a[2]; body { sequence max 2 { a = 1; } }",
        Kind::IsAnArray,
        51,
        52,
    ),
    (
        b"task t; out y; body { scope M max 1 { sequence max 2 { mark M; } } }",
        Kind::NotALoop,
        55,
        62,
    ),
    (
        b"task t; out y; body { scope M max 9 { sequence max 2 { while max 3 (y) { mark N; } } } }",
        Kind::MarkOutsideItsScope,
        78,
        79,
    ),
    (
        b"task t; out y; body { scope M max 9 { sequence max 2 { while max 3 (y) { scope N max 1 { mark M; } } } } }",
        Kind::MarkOutsideItsScope,
        94,
        95,
    ),
    (
        b"task t; out y; func f(a) { a = f(); return a; } body { y = f(1); }",
        Kind::Recursion,
        31,
        32,
    ),
    (
        b"task t; out y; func f(a) { a = g(1, 2); return a; } func g() { return 1; } body { y = f(1); }",
        Kind::Recursion,
        31,
        32,
    ),
    (
        b"task t; out y; func f() { var g; g = g(); return g; } func g() { return 1; } body { y = f(); }",
        Kind::Recursion,
        37,
        38,
    ),
    (
        b"task t; out y; body { y = y(); }",
        Kind::UnknownName,
        26,
        27,
    ),
    (
        b"task t; out y; body { scope M max 1 { } scope M max 1 { } }",
        Kind::TwiceNamed,
        46,
        47,
    ),
    (
        b"task t; out y; func f(f) { return 1; } body { y = f(1); }",
        Kind::TwiceNamed,
        22,
        23,
    ),
    (
        b"task t; out y; func f() { return 1; } func g() { var a; a = f(); return a; } func f() { return 2; } body { y = g(); }",
        Kind::TwiceNamed,
        82,
        83,
    ),
    (
        b"task t; out y[1]; body { y[0] = 1; }",
        Kind::NotAnArray,
        25,
        26,
    ),
    (
        b"task t; out y; body { y = z; y = 2147483648; }",
        Kind::UnknownName,
        26,
        27,
    ),
    (
        b"task t; out y; body { y = 2147483648; y = z; }",
        Kind::ConstantOutOfRange,
        26,
        36,
    ),
    (
        b"task t; out y; func f() { var b; b = a; return b; } func g(a) { return a; } body { y = f(); }",
        Kind::UnknownName,
        37,
        38,
    ),
];

/// A source without a fault, how many cells its task has, and how many counters.
type Good = (&'static [u8], usize, u16);

const GOOD: [Good; 8] = [
    (b"task inc; in a; out y; body { y = a + 1; }", 2, 0),
    (b"task y; out y; body { y = 1; }", 1, 0),
    (b"task t; out y[1]; body { y = 1; }", 1, 0),
    (
        b"task t; out y; func f() { var g; return g; } func g() { return 1; } body { y = f(); }",
        2,
        0,
    ),
    (
        b"task seq; in x; out y; body { sequence max 12 { while max 10 (x) { y = y + 1; } while max 10 (x) { y = y / 3; } } }",
        2,
        3,
    ),
    (
        b"task twice; in x; out y; func f(a) { var n; n = n + a; return n; } body { y = f(x); y = f(x); }",
        4,
        0,
    ),
    (
        b"task t; out y; body { scope M max 1023 { mark M; } sequence max 65535 { while max 65535 (y) { scope N max 0 { mark N; } } } }",
        1,
        4,
    ),
    (b"task t; out y; state a[4095]; body { y = a[0]; }", 2, 0),
];

#[test]
fn sources_have_these_faults(rt: HostRuntime) -> Result<(), Fail> {
    for (text, kind, from, to) in KINDS {
        assert!(rt; text.len() <= 65_536);
        assert_eq!(rt;
            fault_of(rt.alloc(), text),
            Some(Fault {
                kind,
                span: Span { from, to }
            }),
            "in {text:?}"
        );
    }
    for (text, kind, from, to) in PAIRS {
        assert!(rt; text.len() <= 65_536);
        assert_eq!(rt;
            fault_of(rt.alloc(), text),
            Some(Fault {
                kind,
                span: Span { from, to }
            }),
            "in {text:?}"
        );
    }
    Ok(())
}

#[test]
fn sources_have_no_fault(rt: HostRuntime) -> Result<(), Fail> {
    for (text, cells, counters) in GOOD {
        assert!(rt; text.len() <= 65_536);
        let task = task_of(rt.alloc(), text);
        assert_eq!(rt;
            task.as_ref().map(|t| t.cells.len()),
            Some(cells),
            "in {text:?}"
        );
        assert_eq!(rt;
            task.as_ref().map(|t| t.counters),
            Some(counters),
            "in {text:?}"
        );
    }
    Ok(())
}

/// The bytes of `head`, of `part` so many times, and of `tail`.
fn repeated(
    alloc: Global,
    head: &[u8],
    part: &[u8],
    times: usize,
    tail: &[u8],
) -> Result<Vec<u8>, Fail> {
    let mut text = Vec::from_slice(alloc, head)?;
    for _ in 0..times {
        text.extend_from_slice(part)?;
    }
    text.extend_from_slice(tail)?;
    Ok(text)
}

/// 256 loops are fine; the 257th is the fault, and no later one.
#[test]
fn the_257th_counter_is_too_many(rt: HostRuntime) -> Result<(), Fail> {
    let fine = repeated(
        rt.alloc(),
        b"task t; out y; body { ",
        b"while max 1 (y) { } ",
        256,
        b"}",
    )?;
    assert!(rt; fine.len() <= 65_536);
    assert!(rt; fault_of(rt.alloc(), fine.as_slice()).is_none());
    let many = repeated(
        rt.alloc(),
        b"task t; out y; body { ",
        b"while max 1 (y) { } ",
        258,
        b"}",
    )?;
    assert!(rt; many.len() <= 65_536);
    let span = Span {
        from: 22 + 256 * 20,
        to: 22 + 256 * 20 + 19,
    };
    assert_eq!(rt;
        fault_of(rt.alloc(), many.as_slice()),
        Some(Fault {
            kind: Kind::TooManyCounters,
            span
        })
    );
    Ok(())
}

/// `1 + 1 * 1` needs three operand words, and each `1 + (..)` around it one more.
#[test]
fn the_65th_operand_word_is_too_deep(rt: HostRuntime) -> Result<(), Fail> {
    let fine = repeated(
        rt.alloc(),
        b"task t; out y; body { y = ",
        b"1 + (",
        61,
        b"1 + 1 * 1",
    )?;
    let fine = repeated(rt.alloc(), fine.as_slice(), b")", 61, b"; }")?;
    assert!(rt; fine.len() <= 65_536);
    assert!(rt; fault_of(rt.alloc(), fine.as_slice()).is_none());
    let deep = repeated(
        rt.alloc(),
        b"task t; out y; body { y = ",
        b"1 + (",
        62,
        b"1 + 1 * 1",
    )?;
    let deep = repeated(rt.alloc(), deep.as_slice(), b")", 62, b"; }")?;
    assert!(rt; deep.len() <= 65_536);
    let span = Span {
        from: 22,
        to: 26 + 62 * 5 + 9 + 62 + 1,
    };
    assert_eq!(rt;
        fault_of(rt.alloc(), deep.as_slice()),
        Some(Fault {
            kind: Kind::ExpressionTooDeep,
            span
        })
    );
    Ok(())
}

/// The span of an answer ends with its last number: no parenthesis counts for a span, not even an inner one.
#[test]
fn an_answer_is_too_deep_at_its_inner_expression(rt: HostRuntime) -> Result<(), Fail> {
    let deep = repeated(
        rt.alloc(),
        b"task t; func f() { return (",
        b"1 + (",
        62,
        b"1 + 1 * 1",
    )?;
    let deep = repeated(rt.alloc(), deep.as_slice(), b")", 62, b"); } body { }")?;
    assert!(rt; deep.len() <= 65_536);
    let span = Span {
        from: 27,
        to: 27 + 62 * 5 + 9,
    };
    assert_eq!(rt;
        fault_of(rt.alloc(), deep.as_slice()),
        Some(Fault {
            kind: Kind::ExpressionTooDeep,
            span
        })
    );
    Ok(())
}
