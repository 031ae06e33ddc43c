//! The lengths of jobs.
ghost use Rattle.std.specs.Prelude.{◌≡◌, ◌≤◌, All, IfOk, length};
ghost use Rattle.plant.specs.Lengths.{lengths_of};

use graph::length_of;
use mars_base::Memory;
use std::alloc::Global;

/// The ticks of each task's jobs, for the greatest numbers of cycles of the tasks at so many cycles a tick.
pub fn lengths_of(alloc: Global, maxts: &[u32], cycles_per_tick: u16) -> Result<Vec<u32>, Memory>
    requires { 1 ≤ cycles_per_tick }
    ensures lengths { IfOk result (λ list. list.items ≡ lengths_of maxts.now cycles_per_tick) }
    ensures count { IfOk result (λ list. length list.items ≡ length maxts.now) }
    ensures some { IfOk result (λ list. All (λ n. 1 ≤ n) list.items) }
{
    let mut lengths = Vec::new(alloc);
    for maxt in maxts {
        lengths.push(length_of(*maxt, cycles_per_tick))?;
    }
    Ok(lengths)
}
