//! The best split of a number of turns over loops.
//!
//! Each loop has a cap on its turns and a weight for each turn. This is the bounded knapsack problem with items
//! of size 1, for which the greedy choice is the best: the heaviest loops first.
//!
//! Source: S. Martello and P. Toth, "Knapsack Problems", 1990.
#![tactic(auto)]

ghost use Rattle.std.specs.Prelude.{◌≡◌, ℕ, ◌+◌, ◌*◌, ◌^◌, ◌<◌, ◌≤◌, true, false, length, slice_index, slice_index_or, EachIndex, IfSome, IfNone, IsTrue, ◌↔◌};
ghost use Rattle.loop_seq.specs.Split.{IsBestSplit};

/// The most loops over which turns are split.
pub const MOST_LOOPS: usize = 256;

/// Answers the greatest sum of turns times weights, where each loop has at most as many turns as its cap says,
/// and all loops together at most `total`.
///
/// `caps` and `weights` have one length of at most 256. Caps and `total` are at most 65,535, weights at most 2^40.
pub fn best_split(caps: &[u32], weights: &[u64], total: u32) -> u64
    requires same { length weights.now ≡ length caps.now }
    requires most { length caps.now ≤ 256 }
    requires caps { EachIndex caps.now (λ i. slice_index caps.now i ≤ 65535) }
    requires weights { EachIndex weights.now (λ i. slice_index weights.now i ≤ 2 ^ 40) }
    requires total { total ≤ 65535 }
    ensures { IsBestSplit caps.now weights.now total result }
{
    let mut served = [false; MOST_LOOPS];
    let mut left = total;
    let mut worth: u64 = 0;
    while let Some(i) = heaviest_unserved(weights, &served) {
        let turns = caps[i].min(left);
        served[i] = true;
        left -= turns;
        worth += u64::from(turns) * weights[i];
    }
    worth
}

/// The heaviest loop that is not served yet, and the first of several.
fn heaviest_unserved(weights: &[u64], served: &[bool]) -> Option<usize>
    requires { length weights.now ≤ length served.now }
    ensures none { IfNone result (EachIndex weights.now (λ j. slice_index_or served.now j false ≡ true)) }
    ensures inside { IfSome result (λ i. i < length weights.now) }
    ensures unserved { IfSome result (λ i. slice_index_or served.now i false ≡ false) }
    ensures heaviest { IfSome result (λ i. EachIndex weights.now (λ j. slice_index_or served.now j false ≡ false → slice_index weights.now j ≤ slice_index weights.now i)) }
{
    let mut heaviest: Option<usize> = None;
    for i in 0..weights.len() {
        if !served[i] && is_heavier(weights, i, heaviest) {
            heaviest = Some(i);
        }
    }
    heaviest
}

/// Whether the loop `i` is heavier than `other`, or there is no other.
fn is_heavier(weights: &[u64], i: usize, other: Option<usize>) -> bool
    requires inside { i < length weights.now }
    requires other { IfSome other (λ j. j < length weights.now) }
    ensures some { IfSome other (λ j. IsTrue result ↔ (slice_index weights.now j < slice_index weights.now i)) }
    ensures none { IfNone other (IsTrue result) }
{
    match other {
        Some(j) => weights[j] < weights[i],
        None => true,
    }
}

#[cfg(test)]
mod tests {
    use super::*;
    use std::process::Abort;

    /// Three loops and a total.
    #[derive(Clone, Copy)]
    struct Row {
        caps: [u16; 3],
        weights: [u32; 3],
        total: u16,
    }

    const ROWS: [Row; 9] = [
        Row {
            caps: [10, 10, 0],
            weights: [15, 26, 0],
            total: 12,
        },
        Row {
            caps: [3, 4, 5],
            weights: [7, 7, 7],
            total: 9,
        },
        Row {
            caps: [3, 4, 5],
            weights: [0, 0, 0],
            total: 9,
        },
        Row {
            caps: [3, 4, 5],
            weights: [0, 9, 0],
            total: 9,
        },
        Row {
            caps: [3, 4, 5],
            weights: [8, 9, 7],
            total: 0,
        },
        Row {
            caps: [3, 4, 5],
            weights: [8, 9, 7],
            total: 13,
        },
        Row {
            caps: [3, 4, 5],
            weights: [8, 9, 7],
            total: 12,
        },
        Row {
            caps: [3, 4, 5],
            weights: [7, 8, 4_000_000_000],
            total: 6,
        },
        Row {
            caps: [0, 0, 0],
            weights: [8, 9, 7],
            total: 6,
        },
    ];

    /// The greatest worth over all splits of the row, one after the other.
    fn best_of_all(row: Row) -> u64 {
        let mut best = 0;
        for first in 0..row.caps[0].saturating_add(1) {
            for second in 0..row.caps[1].saturating_add(1) {
                for third in 0..row.caps[2].saturating_add(1) {
                    let turns = [first, second, third];
                    if u32::from(first) + u32::from(second) + u32::from(third)
                        <= u32::from(row.total)
                    {
                        let mut worth: u64 = 0;
                        for i in 0..3 {
                            worth = worth.saturating_add(u64::from(turns[i]).saturating_mul(
                                u64::from(row.weights[i]),
                            ));
                        }
                        best = best.max(worth);
                    }
                }
            }
        }
        best
    }

    fn compare(rt: &impl Abort, row: Row) {
        let mut caps = [0; 3];
        let mut weights = [0; 3];
        for i in 0..3 {
            caps[i] = u32::from(row.caps[i]);
            weights[i] = u64::from(row.weights[i]);
        }
        let best = best_split(&caps, &weights, u32::from(row.total));
        assert_eq!(rt; best, best_of_all(row));
    }

    #[test]
    fn splits_are_as_good_as_any(rt: HostRuntime) {
        for row in ROWS {
            compare(&rt, row);
        }
        assert_eq!(rt; best_split(&[10, 10], &[15, 26], 12), 290);
        assert_eq!(rt; best_split(&[], &[], 12), 0);
        assert_eq!(rt; best_split(&[65_535], &[1 << 40], 65_535), 65_535 << 40);
    }
}
