//! The remaining ticks of tasks.
ghost use Rattle.std.specs.Prelude.{◌≡◌, ℕ, ◌*◌, ◌^◌, ◌<◌, ◌≤◌, IfOk, length, slice_index};
ghost use Rattle.graph.specs.Net.{Feeds};
ghost use Rattle.graph.specs.Sound.{HasCounts, HasEntries};
ghost use Rattle.graph.specs.Order.{IsOrder};
ghost use Rattle.graph.specs.Masks.{AreMasks};
ghost use Rattle.graph.specs.TaskRemaining.{IsGreatestFed, HasRemainingFrom};

use crate::net::Net;
use crate::order::{has_task, producers};
use mars_base::Memory;
use std::alloc::Global;

/// The greatest number in the list of a task that the task feeds, 0 where it feeds none.
fn greatest_fed(net: &Net, masks: &[u64; 64], list: &[u64], task: u8) -> u64
    requires counts { HasCounts net.now }
    requires entries { HasEntries net.now }
    requires masks { AreMasks net.now.edges masks.now }
    requires list { length list.now ≡ length net.now.tasks }
    requires task { task < length net.now.tasks }
    ensures { IsGreatestFed net.now list.now task result }
{
    let mut greatest = 0;
    for next in 0..list.len() {
        if has_task(masks[next], task) && list[next] > greatest {
            greatest = list[next];
        }
    }
    greatest
}

/// For each task its length and the greatest of these numbers of the tasks that it feeds.
pub(crate) fn task_remaining(
    alloc: Global,
    net: &Net,
    tasks: &[u8],
    lengths: &[u32],
) -> Result<Vec<u64>, Memory>
    requires counts { HasCounts net.now }
    requires entries { HasEntries net.now }
    requires order { IsOrder (Feeds net.now) (length net.now.tasks) tasks.now }
    requires lengths { length lengths.now ≡ length net.now.tasks }
    ensures { IfOk result (λ list. HasRemainingFrom net.now lengths.now tasks.now list.items 0) }
{
    let masks = producers(net);
    let mut list = vec![in alloc; 0u64; net.tasks.len()]?;
    for place in (0..tasks.len()).rev() {
        let task = tasks[place];
        let after = greatest_fed(net, &masks, list.as_slice(), task);
        list[usize::from(task)] = u64::from(lengths[usize::from(task)]) + after;
    }
    Ok(list)
}
