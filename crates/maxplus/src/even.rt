//! Powers of concave vectors: the best way to come to an index is to split it evenly over the folds.
ghost use Rattle.std.specs.Prelude.{◌≡◌, ◌+◌, ◌-◌, ◌*◌, ◌^◌, ◌<◌, ◌≤◌, ◌↔◌, min, length, IsTrue};
ghost use Rattle.maxplus.specs.Concave.{IsConcave};
ghost use Rattle.maxplus.specs.MaxPlus.{fold_convolution, cap, entries, IsWithinCap, HoldsCapped};

use crate::CAP;

/// Whether the possible entries are the first ones, and each of them rises by no more than the one before.
pub fn is_concave(v: &[u64]) -> bool
    requires some { 0 < length v.now }
    requires within { IsWithinCap v.now }
    ensures { IsTrue result ↔ IsConcave v.now }
{
    if v[0] == 0 {
        return false;
    }
    for k in 2..v.len() {
        if v[k] > 0 && v[k - 2] + v[k] > 2 * v[k - 1] {
            return false;
        }
    }
    true
}

/// Writes the `n`-th power of a concave vector, capped.
pub fn even_power(v: &[u64], n: u32, out: &mut [u64])
    requires some { 0 < n }
    requires turns { n ≤ 65535 }
    requires room { length out.old ≡ length v.now }
    requires within { IsWithinCap v.now }
    requires concave { IsConcave v.now }
    ensures { HoldsCapped out.new (fold_convolution (entries v.now) n) }
{
    for k in 0..v.len() {
        out[k] = power_entry(v, n as usize, k);
    }
}

// The entry at `k` of the `n`-th power of a concave vector, capped.
fn power_entry(v: &[u64], n: usize, k: usize) -> u64
    requires some { 0 < n }
    requires turns { n ≤ 65535 }
    requires inside { k < length v.now }
    requires within { IsWithinCap v.now }
    requires concave { IsConcave v.now }
    ensures { result ≡ min (fold_convolution (entries v.now) n k) cap }
{
    if k == 0 {
        return (1 + times(n, v[0])).min(CAP);
    }
    let i = (k - 1) / n;
    let more = (k - 1) % n + 1;
    if v[i + 1] == 0 {
        return 0;
    }
    (1 + times(n - more, v[i]) + times(more, v[i + 1])).min(CAP)
}

// The cost of an entry, so many times; that of an impossible entry is 0.
fn times(folds: usize, entry: u64) -> u64
    requires folds { folds ≤ 65535 }
    requires entry { entry ≤ cap }
    ensures value { result ≡ folds * (entry - 1) }
    ensures most { result ≤ 65535 * 2 ^ 40 }
{
    folds as u64 * entry.saturating_sub(1)
}
