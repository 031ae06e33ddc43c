//! The order of the tasks, and of the jobs.
ghost use Rattle.std.specs.Prelude.{◌≡◌, ℕ, ◌+◌, ◌<◌, ◌≤◌, ◌^◌, ◌↔◌, IsTrue, IfOk, IfSome, IfNone, MatchOption, length, slice_index};
ghost use Rattle.std.specs.Int.{bit_at};
ghost use Rattle.graph.specs.Net.{Feeds, instances};
ghost use Rattle.graph.specs.Sound.{HasCounts, HasEntries};
ghost use Rattle.graph.specs.Order.{IsOrder, HasNoCircle};
ghost use Rattle.graph.specs.Masks.{AreMasks, IsOpen};

use crate::net::Net;
use mars_base::Memory;
use std::alloc::Global;

/// For each task the tasks that feed it, as a mask: bit n stands for task n.
pub(crate) fn producers(net: &Net) -> [u64; 64]
    requires counts { HasCounts net.now }
    requires entries { HasEntries net.now }
    ensures masks { AreMasks net.now.edges result }
    ensures small { (task : ℕ) → slice_index result task < 2 ^ 64 }
{
    let mut masks = [0u64; 64];
    for edge in net.edges.as_slice() {
        let to = usize::from(edge.to_task);
        masks[to] = masks[to] | 1u64 << edge.from_task;
    }
    masks
}

/// Whether a mask has the task.
pub(crate) fn has_task(mask: u64, task: u8) -> bool
    requires { task < 64 }
    ensures { IsTrue result ↔ (bit_at mask task ≡ 1) }
{
    mask >> task & 1 == 1
}

/// Whether the task isn't named, and all tasks of its mask are.
fn is_open(masks: &[u64; 64], named: u64, task: u8) -> bool
    requires { task < 64 }
    ensures { IsTrue result ↔ IsOpen masks.now named task }
{
    named >> task & 1 == 0 && masks[usize::from(task)] & !named == 0
}

/// The first task that isn't named and whose producers all are.
fn first_open(masks: &[u64; 64], named: u64, count: u8) -> Option<u8>
    requires { count ≤ 64 }
    ensures some { IfSome result (λ task. (task < count) × IsOpen masks.now named task) }
    ensures first { IfSome result (λ task. (t : ℕ) → t < task → IsOpen masks.now named t → ⊥) }
    ensures none { IfNone result ((t : ℕ) → t < count → IsOpen masks.now named t → ⊥) }
{
    for task in 0..count {
        if is_open(masks, named, task) {
            return Some(task);
        }
    }
    None
}

/// The tasks in order: each place has the first task whose producers all stand before it. None exactly
/// where edges go in a circle.
pub(crate) fn order_tasks(alloc: Global, net: &Net) -> Result<Option<Vec<u8>>, Memory>
    requires counts { HasCounts net.now }
    requires entries { HasEntries net.now }
    ensures { IfOk result (λ order. MatchOption order (HasNoCircle (Feeds net.now) → ⊥) (λ tasks. IsOrder (Feeds net.now) (length net.now.tasks) tasks.items)) }
{
    let masks = producers(net);
    let count = net.tasks.len() as u8;
    let mut order = Vec::new(alloc);
    let mut named = 0u64;
    for place in 0..count {
        let Some(task) = first_open(&masks, named, count) else {
            return Ok(None);
        };
        order.push(task)?;
        named = named | 1u64 << task;
    }
    Ok(Some(order))
}
