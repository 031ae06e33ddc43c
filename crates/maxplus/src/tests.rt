ghost use Rattle.std.specs.Prelude.{◌<◌, ◌≤◌};
ghost use Rattle.maxplus.specs.MaxPlus.{cap, IsWithinCap};

use super::*;
use std::process::Abort;

const MOST: usize = 1024;

const TWICE: usize = 2048;

/// What a sample vector is like.
#[derive(Clone, Copy)]
enum Sample {
    /// Impossible entries, small ones, and some at the cap and just below it.
    Mixed(usize),
    /// Twenty entries that rise by less and less, and then none.
    Concave,
    /// Entries that rise by 3 each.
    Line,
}

const SAMPLES: [Sample; 5] = [
    Sample::Mixed(1),
    Sample::Mixed(2),
    Sample::Mixed(5),
    Sample::Concave,
    Sample::Line,
];

fn entry(sample: Sample, k: usize) -> u64
    ensures { result ≤ cap }
{
    match sample {
        Sample::Mixed(step) => mixed(step.wrapping_mul(k.wrapping_add(1)) % 7),
        Sample::Concave if k < 20 => 6 + 100 * (k as u64) - (k as u64) * (k as u64),
        Sample::Concave => 0,
        Sample::Line => ((k % MOST) as u64) * 3 + 7,
    }
}

fn mixed(part: usize) -> u64
    requires { part < 7 }
    ensures { result ≤ cap }
{
    match part {
        0 | 3 => 0,
        1 => 1 << 40,
        5 => (1 << 40) - 2,
        small => small as u64,
    }
}

fn fill(out: &mut [u64], sample: Sample)
    ensures { IsWithinCap out.new }
{
    for k in 0..out.len() {
        out[k] = entry(sample, k);
    }
}

/// The convolution with no cap, over all pairs of indices.
fn plain_convolution(a: &[u64], b: &[u64]) -> [u64; MOST] {
    let mut out = [0; MOST];
    let length = a.len().min(b.len()).min(MOST);
    for k in 0..length {
        for i in 0..k + 1 {
            for j in 0..k + 1 {
                if k - i == j && a[i] > 0 && b[j] > 0 {
                    out[k] = out[k].max((a[i] - 1).saturating_add(b[j]));
                }
            }
        }
    }
    out
}

/// The greatest of the folds with no cap.
fn plain_power(a: &[u64], folds: u32) -> [u64; MOST] {
    let mut fold = [0; MOST];
    fold[0] = 1;
    let mut greatest = fold;
    for _ in 0..folds {
        fold = plain_convolution(a, &fold);
        for k in 0..MOST {
            greatest[k] = greatest[k].max(fold[k]);
        }
    }
    greatest
}

fn compare(rt: &impl Abort, length: usize, left: Sample, right: Sample, folds: u32)
    requires some { 0 < length }
    requires most { length ≤ 1024 }
    requires folds { folds ≤ 65535 }
{
    let (mut a, mut b, mut out, mut scratch) = ([0; MOST], [0; MOST], [0; MOST], [0; TWICE]);
    let (a, b, out) = (&mut a[..length], &mut b[..length], &mut out[..length]);
    fill(a, left);
    fill(b, right);
    convolve(a, b, out);
    let expected = plain_convolution(a, b);
    for k in 0..length {
        assert_eq!(rt; out[k], expected[k].min(1 << 40), "{length} {k}");
    }
    power(a, folds, out, &mut scratch[..2 * length]);
    let expected = plain_power(a, folds);
    for k in 0..length {
        assert_eq!(rt; out[k], expected[k].min(1 << 40), "{length} {folds} {k}");
    }
}

#[test]
fn every_length_is_as_the_plain_loops_say(rt: HostRuntime) {
    for length in 1..41 {
        for left in SAMPLES {
            for folds in 0..5 {
                compare(&rt, length, left, SAMPLES[folds], folds as u32);
            }
        }
    }
    for length in 1023..1025 {
        compare(&rt, length, Sample::Mixed(1), Sample::Mixed(5), 1);
        compare(&rt, length, Sample::Line, Sample::Mixed(2), 2);
    }
}

#[test]
fn sixty_thousand_folds(rt: HostRuntime) {
    let mut out = [0; 4];
    let mut scratch = [0; 8];
    power(&[3, 8, 0, 0], 60_000, &mut out, &mut scratch);
    assert_eq!(rt; out, [120_001, 120_006, 120_011, 120_016]);
    power(&[1, 0, 5, 0], 60_000, &mut out, &mut scratch);
    assert_eq!(rt; out, [1, 0, 5, 0]);
    power(&[0, 0, 5, 1], 60_000, &mut out, &mut scratch);
    assert_eq!(rt; out, [1, 0, 5, 1]);
    power(&[1 << 40, 0, 0, 0], 60_000, &mut out, &mut scratch);
    assert_eq!(rt; out, [1 << 40, 0, 0, 0]);
}
