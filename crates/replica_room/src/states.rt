//! The states of a replica's tasks.
ghost use Rattle.std.specs.Prelude.{◌≡◌, ◌≤◌, ◌<◌, ℕ, List, ℤ, IfOk, length, slice_index};
ghost use Rattle.graph.specs.NetGraph.{IsNetGraph};
ghost use Rattle.net_run.specs.NetRun.{Execution};
ghost use Rattle.cluster_model.specs.Cluster.{first_held_states};
ghost use Rattle.cluster_model.specs.Plan.{listed};
ghost use Rattle.cluster_model.specs.PlanOf.{plan_of};
ghost use Rattle.replica_room.specs.Fresh.{own_words};

use graph::{Graph, Net};
use mars_base::Memory;
use std::alloc::Global;
use tables::Tables;
use task_words::TaskStates;
use timetable::entry_at;

/// The states of tasks as a replica of a unit has them before the first cycle, where each task has so many state words:
/// those of the unit's own tasks are all 0, and it has none of the others. No later call takes memory.
pub fn states_of(
    alloc: Global,
    net: &Net,
    graph: &Graph,
    tables: &Tables,
    words: &[u16],
    unit: u8,
) -> Result<TaskStates, Memory>
    requires net { IsNetGraph net.now graph.now }
    requires words { length words.now ≡ length net.now.tasks }
    ensures states { (exec : Execution) (cost : ℕ → List ℤ → List ℤ → ℕ)
        → IfOk result (λ states. states ≡ first_held_states (plan_of net.now graph.now tables.now words.now exec cost) unit) }
    ensures count { IfOk result (λ states. length states ≡ length net.now.tasks) }
{
    let counts = own_words(alloc, net, graph, tables, words, unit)?;
    TaskStates::new(alloc, counts.as_slice())
}

// For each task its state words where it is the unit's, else 0.
fn own_words(
    alloc: Global,
    net: &Net,
    graph: &Graph,
    tables: &Tables,
    words: &[u16],
    unit: u8,
) -> Result<Vec<u16>, Memory>
    requires net { IsNetGraph net.now graph.now }
    requires words { length words.now ≡ length net.now.tasks }
    ensures { IfOk result (λ counts. counts.items ≡ listed (length net.now.tasks) (own_words net.now graph.now tables.now words.now unit)) }
{
    let mut counts = Vec::new(alloc);
    for task in 0..net.tasks.len() as u8 {
        counts.push(words_of(net, graph, tables, words, unit, task))?;
    }
    Ok(counts)
}

// The state words of a task where it is the unit's, else 0.
fn words_of(net: &Net, graph: &Graph, tables: &Tables, words: &[u16], unit: u8, task: u8) -> u16
    requires net { IsNetGraph net.now graph.now }
    requires words { length words.now ≡ length net.now.tasks }
    requires task { task < length net.now.tasks }
    ensures { result ≡ own_words net.now graph.now tables.now words.now unit task }
{
    let home = entry_at(tables, usize::from(graph.first_job(task))).unit;
    if home == unit {
        words[usize::from(task)]
    } else {
        0
    }
}

/// Room for the state of any task, where each task has so many state words.
pub fn state_room(alloc: Global, words: &[u16]) -> Result<Vec<i32>, Memory>
    ensures { IfOk result (λ room. (task : ℕ) → slice_index words.now task ≤ length room.items) }
{
    Ok(vec![in alloc; 0i32; usize::from(greatest(words))]?)
}

// The greatest of some numbers; 0 of none.
fn greatest(numbers: &[u16]) -> u16
    ensures { (k : ℕ) → slice_index numbers.now k ≤ result }
{
    let mut most = 0;
    for number in numbers {
        if *number > most {
            most = *number;
        }
    }
    most
}
