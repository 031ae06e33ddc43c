//! How far the jobs are placed, in the order of their latest starts.
ghost use Rattle.std.specs.Prelude.{◌≡◌, ℕ, ◌<◌, ◌≤◌, min, IfOk, length, slice_get, get_or, is_some, true, Some};
ghost use Rattle.placement.specs.Feeding.{flat};

use crate::places::has_place;
use mars_base::Memory;
use std::alloc::Global;

/// The first place of a job in an order, and the order's end where it has none.
fn rank_of(order: &[u16], job: usize) -> usize
    ensures { (k : ℕ) → slice_get order.now k ≡ Some job → result ≤ k }
{
    for place in 0..order.len() {
        if usize::from(order[place]) == job {
            return place;
        }
    }
    order.len()
}

/// The first place of each of so many jobs in an order.
pub(crate) fn ranks_of(alloc: Global, order: &[u16], jobs: usize) -> Result<Vec<usize>, Memory>
    ensures size { IfOk result (λ ranks. length ranks.items ≡ jobs) }
    ensures least { IfOk result (λ ranks. (job k : ℕ) → job < jobs → slice_get order.now k ≡ Some job → get_or ranks.items job 0 ≤ k) }
{
    let mut ranks = Vec::new(alloc);
    for job in 0..jobs {
        ranks.push(rank_of(order, job))?;
    }
    Ok(ranks)
}

/// The rank of a job.
pub(crate) fn rank_at(ranks: &[usize], job: usize) -> usize
    requires { job < length ranks.now }
    ensures { result ≡ get_or ranks.now job 0 }
{
    ranks[job]
}

/// The place in an order up to which all jobs have a place in a table, from one on up to which they have.
pub(crate) fn placed_to(order: &[u16], places: &[Option<u16>], first: usize) -> usize
    ensures later { first ≤ result }
    ensures placed { (k job : ℕ) → slice_get order.now k ≡ Some job → first ≤ k → k < result → is_some (flat (slice_get places.now job)) ≡ true }
{
    let mut place = first;
    while place < order.len() {
        if !has_place(places, usize::from(order[place])) {
            return place;
        }
        place += 1;
    }
    place
}

/// The lesser of two places.
pub(crate) fn lesser(place: usize, other: usize) -> usize
    ensures { result ≡ min place other }
{
    if place < other { place } else { other }
}
