//! The convolution of two vectors, by the entries of the left one. An impossible entry is passed over, and for any
//! other the products with the right vector are taken four at a time.
ghost use Rattle.std.specs.Prelude.{◌≡◌, ℕ, ◌+◌, ◌-◌, ◌*◌, ◌<◌, ◌≤◌, max, min, length, slice_index, EachIndex};
ghost use Rattle.std.specs.Simd.Lanes.{Each1};
ghost use Rattle.maxplus.specs.MaxPlus.{product, convolution, cap, entries, IsWithinCap, HoldsCapped};

use crate::CAP;
use std::simd::prelude::*;

/// How many entries are taken at once.
const LANES: usize = 4;

/// Writes the convolution of `a` and `b` into `out`: at `k` the greatest `a[i] + b[j] - 1` over `i + j = k` with
/// both entries above 0, and 0 where there is none, capped at [`CAP`].
///
/// The three have one length, from 1 to 1,024, and no entry of `a` or `b` passes [`CAP`].
pub fn convolve(a: &[u64], b: &[u64], out: &mut [u64])
    requires some { 0 < length a.now }
    requires most { length a.now ≤ 1024 }
    requires same { length b.now ≡ length a.now }
    requires room { length out.old ≡ length a.now }
    requires left { IsWithinCap a.now }
    requires right { IsWithinCap b.now }
    ensures { HoldsCapped out.new (convolution (entries a.now) (entries b.now)) }
{
    for entry in out.iter_mut() {
        *entry = 0;
    }
    for i in 0..a.len() {
        raise_products(out, a[i], b, i);
    }
    cap_entries(out);
}

// Raises each entry from `start` on to the product of `x` and the entry of `b` that stands `start` before it.
fn raise_products(out: &mut [u64], x: u64, b: &[u64], start: usize)
    requires same { length b.now ≡ length out.old }
    requires inside { start < length out.old }
    requires x { x ≤ cap }
    requires b { IsWithinCap b.now }
    ensures before { (k : ℕ) → k < start → entries out.new k ≡ entries out.old k }
    ensures from { (k : ℕ) → start ≤ k → k < length out.old → entries out.new k ≡ max (entries out.old k) (product x (entries b.now (k - start))) }
{
    if x > 0 {
        let whole = (out.len() - start) / LANES;
        for n in 0..whole {
            raise_lanes(out, x, b, start, LANES * n);
        }
        for k in start + LANES * whole..out.len() {
            out[k] = out[k].max(product_of(x, b[k - start]));
        }
    }
}

// Raises the four entries from `start + j` on to the products of `x` and the four entries of `b` from `j` on.
fn raise_lanes(out: &mut [u64], x: u64, b: &[u64], start: usize, j: usize)
    requires some { 0 < x }
    requires x { x ≤ cap }
    requires inside { start + j + 4 ≤ length out.old }
    requires room { j + 4 ≤ length b.now }
    requires b { IsWithinCap b.now }
    ensures below { (k : ℕ) → k < start + j → entries out.new k ≡ entries out.old k }
    ensures lanes { (k : ℕ) → start + j ≤ k → k < start + j + 4 → entries out.new k ≡ max (entries out.old k) (product x (entries b.now (k - start))) }
    ensures above { (k : ℕ) → start + j + 4 ≤ k → entries out.new k ≡ entries out.old k }
{
    let products = lane_products(x, u64x4::from_slice(&b[j..]));
    let raised = lane_max(u64x4::from_slice(&out[start + j..]), products);
    raised.copy_to_slice(&mut out[start + j..]);
}

// The greater one of each two entries.
fn lane_max(a: u64x4, b: u64x4) -> u64x4
    requires left { length a ≡ 4 }
    requires right { length b ≡ 4 }
    ensures four { length result ≡ 4 }
    ensures greater { (k : ℕ) → k < 4 → slice_index result k ≡ max (slice_index a k) (slice_index b k) }
{
    a.simd_max(b)
}

// The product of `x` and each of four entries.
fn lane_products(x: u64, entries: u64x4) -> u64x4
    requires some { 0 < x }
    requires x { x ≤ cap }
    requires four { length entries ≡ 4 }
    requires entries { Each1 (λ y. y ≤ cap) entries }
    ensures four { length result ≡ 4 }
    ensures products { (k : ℕ) → k < 4 → slice_index result k ≡ product x (slice_index entries k) }
{
    let none = u64x4::splat(0);
    let sums = entries + u64x4::splat(x - 1);
    none.simd_lt(entries).select(sums, none)
}

// The cost of both, and impossible where one of the two is.
fn product_of(x: u64, y: u64) -> u64
    requires x { x ≤ cap }
    requires y { y ≤ cap }
    ensures { result ≡ product x y }
{
    if x == 0 || y == 0 { 0 } else { x + y - 1 }
}

// Caps each entry.
fn cap_entries(out: &mut [u64])
    ensures { EachIndex out.new (λ k. entries out.new k ≡ min (entries out.old k) cap) }
{
    for entry in out.iter_mut() {
        *entry = (*entry).min(CAP);
    }
}
