use crate::task_of;
use crate::tries::greatest;
use maxt::{MaxtFault, maxt};
use mc_compile::compile;
use mc_fold::fold;
use std::alloc::Global;

/// MAXT of a text's folded task. `None` where there is no such task, or no memory.
fn bound(alloc: Global, text: &[u8]) -> Option<Result<u32, MaxtFault>> {
    if text.len() > 65_536 {
        return None;
    }
    let task = task_of(alloc, text)?;
    let Ok(folded) = fold(alloc, &task) else {
        return None;
    };
    Some(maxt(alloc, &folded))
}

/// Whether MAXT of a text's task is the greatest of its free runs, as all of them are tried.
fn is_greatest(alloc: Global, text: &[u8]) -> Option<bool> {
    if text.len() > 65_536 {
        return None;
    }
    let task = task_of(alloc, text)?;
    let (Ok(code), answer) = (compile(alloc, &task), maxt(alloc, &task)) else {
        return None;
    };
    let Ok(tried) = greatest(alloc, code.code()) else {
        return None;
    };
    Some(match (answer, tried) {
        (Ok(cycles), Some(greatest)) => u64::from(cycles) == greatest,
        (Err(MaxtFault::NoPath), None) => true,
        _ => false,
    })
}

/// Texts with their MAXT, worked by hand.
const ROWS: [(&[u8], u32); 8] = [
    (
        b"task count; in n; out y; body { y = 0; while max 3 (y < n) { y = y + 1; } }",
        60,
    ),
    (
        b"task seq; in x; out y; body { sequence max 12 { while max 10 (x) { y = y + 1; } while max 10 (x) { y = y / 3; } } }",
        302,
    ),
    (
        b"task deep1; in x; out y; body { var j; scope M max 10 { while max 60 (x) { while max 30 (j) { if (x) { mark M; y = x / 3; } } } } }",
        20_717,
    ),
    (
        b"task deep; in x; out y; body { var j; scope M max 1000 { while max 60000 (x) { while max 30 (j) { if (x) { mark M; y = x / 3; } } } } }",
        20_539_007,
    ),
    (b"task fold; in x; out y; body { y = x + 2 * 3 - -4; }", 9),
    (b"task zero; out y; body { y = 1 / 0; }", 17),
    (b"task never; out y; body { y = 3 > 5; }", 4),
    (b"task empty; body { }", 1),
];

#[test]
fn rows_worked_by_hand(rt: HostRuntime) {
    let alloc = rt.alloc();
    for (text, cycles) in ROWS {
        let answer = bound(alloc, text);
        assert!(rt;
            matches!(answer, Some(Ok(found)) if found == cycles),
            "{cycles}"
        );
    }
}

#[test]
fn no_path_and_too_long(rt: HostRuntime) {
    let alloc = rt.alloc();
    let none = bound(
        alloc,
        b"task nopath; in x; out y; body { scope M max 0 { mark M; } }",
    );
    assert!(rt; matches!(none, Some(Err(MaxtFault::NoPath))));
    let far = bound(
        alloc,
        b"task far; in x; out y; body { while max 65535 (x) { while max 65535 (x) { } } }",
    );
    assert!(rt; matches!(far, Some(Err(MaxtFault::TooLong))));
}

/// Texts with few free runs: nests, functions of functions, scopes in loops in scopes, sequences.
const FEW: [&[u8]; 12] = [
    b"task a; in x; out y; body { if (x) { y = 1; } else { y = 2 / x; } if (y) { } else { y = x * x; } }",
    b"task b; in x; out y; body { if (x) { y = 1; } else { } if (x) { y = 1; } }",
    b"task c; in x; out y; func f(a) { if (a) { a = a * 3; } return a / 2; } func g(a, b) { var t; t = f(a); t = f(t); return t + b; } body { y = g(x, 1); y = f(y); }",
    b"task d; in x; out y; body { scope M max 2 { while max 3 (x) { if (x) { mark M; y = y / 3; } scope N max 1 { while max 2 (y) { if (y) { mark N; x = x; } } } } } }",
    b"task e; in x; out y; body { scope M max 3 { mark M; while max 3 (x) { mark M; mark M; y = y * 2; } } }",
    b"task f; in x; out y; body { sequence max 3 { while max 2 (x) { y = y + 1; } while max 2 (y) { if (x) { y = y / 3; } } while max 1 (x && y) { x = 1; } } }",
    b"task g; in x; out y; body { while max 2 (x) { sequence max 2 { while max 2 (x) { scope K max 1 { if (y) { mark K; } else { y = 7 % x; } } } } } }",
    b"task h; in x; out y; body { scope M max 0 { if (x) { mark M; } } while max 2 (x) { scope M2 max 0 { mark M2; } } y = 1; }",
    b"task i; in x; out y; func f(a) { scope M max 0 { mark M; } return a; } body { if (x) { y = f(x); } else { y = 1; } }",
    b"task j; in x; out y; func f(a) { scope M max 0 { mark M; } return a; } body { y = f(x); }",
    b"task k; in x; out y; state s[4]; body { s[x] = s[y % 4] + ~x; if (s[0] != 1 || s[1] >= 2) { y = -s[2]; } }",
    b"task l; in x; out y; body { scope M max 5 { while max 2 (x) { mark M; if (x) { mark M; mark M; y = y / 2; } else { y = y * 2; } } mark M; } }",
];

#[test]
fn free_runs_tried_one_by_one(rt: HostRuntime) {
    let alloc = rt.alloc();
    for text in FEW {
        let greatest = is_greatest(alloc, text);
        assert!(rt; matches!(greatest, Some(true)), "{}", text.len());
    }
}

/// A text with 63 compounds, one in the other.
fn nest(alloc: Global, compound: &str) -> Option<String> {
    let Ok(mut text) = String::from_str(alloc, "task nest; in x; out y; body { ") else {
        return None;
    };
    for _ in 0..63 {
        if text.push_str(compound).is_err() {
            return None;
        }
    }
    for _ in 0..64 {
        if text.push_str("y = y + 1; }").is_err() {
            return None;
        }
    }
    Some(text)
}

#[test]
fn sixty_three_compounds(rt: HostRuntime) {
    let alloc = rt.alloc();
    for compound in [
        "if (x) { ",
        "if (x) { x = 1; } else { ",
        "while max 1 (x) { ",
    ] {
        let text = nest(alloc, compound);
        let greatest = match &text {
            Some(text) => is_greatest(alloc, text.as_bytes()),
            None => None,
        };
        assert!(rt; matches!(greatest, Some(true)), "{compound}");
    }
}
