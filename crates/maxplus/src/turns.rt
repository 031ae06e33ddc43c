//! The greatest of the folds of a vector, as one power. Where the vector is concave, the power is an even split of
//! each index; elsewhere it is taken by squaring.
ghost use Rattle.std.specs.Prelude.{◌≡◌, ◌*◌, ◌<◌, ◌≤◌, max, length, EachIndex};
ghost use Rattle.maxplus.specs.MaxPlus.{identity, fold_convolution, greatest_fold, cap, entries, IsWithinCap, HoldsCapped};

use crate::even::{even_power, is_concave};
use crate::kernel::convolve;

/// Writes into `out`, entry by entry, the greatest over `j` from 0 to `n` of the `j`-fold convolution of `a`,
/// capped at [`CAP`](crate::CAP). The 0-fold one is 1 and then zeros.
///
/// `a` and `out` have one length, from 1 to 1,024, and no entry of `a` passes the cap. `n` is at most 65,535.
/// `scratch` has twice the length, and its contents after the call are open.
pub fn power(a: &[u64], n: u32, out: &mut [u64], scratch: &mut [u64])
    requires some { 0 < length a.now }
    requires most { length a.now ≤ 1024 }
    requires room { length out.old ≡ length a.now }
    requires twice { length scratch.old ≡ 2 * length a.now }
    requires within { IsWithinCap a.now }
    requires turns { n ≤ 65535 }
    ensures { HoldsCapped out.new (greatest_fold (entries a.now) n) }
{
    let (joined, next) = scratch.split_at_mut(a.len());
    join_identity(a, joined);
    if n > 0 && is_concave(joined) {
        even_power(joined, n, out);
    } else {
        power_by_squaring(joined, n, out, next);
    }
}

// Writes `a` with the entry at 0 raised to 1, which is no cost.
fn join_identity(a: &[u64], out: &mut [u64])
    requires some { 0 < length a.now }
    requires room { length out.old ≡ length a.now }
    ensures { EachIndex out.new (λ k. entries out.new k ≡ max (entries a.now k) (identity k)) }
{
    out.copy_from_slice(a);
    out[0] = out[0].max(1);
}

// Writes the `n`-th power of `a`: the square of that of half of `n`, and once more `a` where `n` is odd.
fn power_by_squaring(a: &[u64], n: u32, out: &mut [u64], next: &mut [u64])
    requires some { 0 < length a.now }
    requires most { length a.now ≤ 1024 }
    requires room { length out.old ≡ length a.now }
    requires next { length next.old ≡ length a.now }
    requires within { IsWithinCap a.now }
    ensures { HoldsCapped out.new (fold_convolution (entries a.now) n) }
{
    if n == 0 {
        set_identity(out);
        return;
    }
    power_by_squaring(a, n / 2, out, next);
    convolve(out, out, next);
    if n % 2 == 0 {
        out.copy_from_slice(next);
    } else {
        convolve(a, next, out);
    }
}

// Writes 1 and then zeros.
fn set_identity(out: &mut [u64])
    requires { 0 < length out.old }
    ensures { EachIndex out.new (λ k. entries out.new k ≡ identity k) }
{
    for entry in out.iter_mut() {
        *entry = 0;
    }
    out[0] = 1;
}
