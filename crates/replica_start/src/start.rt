//! The start of a cycle.
ghost use Rattle.std.specs.Prelude.{◌≡◌, ℕ, List, ℤ, IfOk, None, length};
ghost use Rattle.graph.specs.JobGraph.{JobGraph};
ghost use Rattle.graph.specs.NetGraph.{IsNetGraph};
ghost use Rattle.graph.specs.declared.net.Net.{Net};
ghost use Rattle.tables.specs.Valid.{AreValid};
ghost use Rattle.tables.specs.declared.table.Tables.{Tables};
ghost use Rattle.net_run.specs.NetRun.{Execution};
ghost use Rattle.cluster_model.specs.Cluster.{fresh_held, first_held_states};
ghost use Rattle.cluster_model.specs.PlanOf.{plan_of};
ghost use Rattle.replica_desk.specs.Desk.{IsDesk, HasStates, held_in};

use graph::{Graph, Net};
use mars_base::Memory;
use replica_desk::Desk;
use replica_room::{book_of, forget, inbox_of, states_of};
use std::alloc::Global;
use tables::Tables;
use task_words::InWords;

/// What a replica of a unit holds before the first cycle, where each task has so many state words. No later call takes
/// memory.
pub fn first_desk(
    alloc: Global,
    net: &Net,
    graph: &Graph,
    tables: &Tables,
    words: &[u16],
    unit: u8,
) -> Result<Desk, Memory>
    requires net { IsNetGraph net.now graph.now }
    requires valid { AreValid net.now graph.now tables.now }
    requires words { length words.now ≡ length net.now.tasks }
    ensures desk { IfOk result (λ desk. (ticks : ℕ) → IsDesk net.now graph.now tables.now unit ticks desk) }
    ensures clock { IfOk result (λ desk. desk.clock ≡ 0) }
    ensures hand { IfOk result (λ desk. desk.hand ≡ None) }
    ensures states { IfOk result (λ desk. HasStates net.now graph.now tables.now unit words.now desk.states) }
    ensures held { (exec : Execution) (cost : ℕ → List ℤ → List ℤ → ℕ)
        → IfOk result (λ desk. held_in graph.now desk ≡ fresh_held (plan_of net.now graph.now tables.now words.now exec cost) (first_held_states (plan_of net.now graph.now tables.now words.now exec cost) unit)) }
{
    let book = book_of(alloc, net, graph)?;
    let inbox = inbox_of(alloc, net, tables)?;
    let states = states_of(alloc, net, graph, tables, words, unit)?;
    let ins = InWords::new(alloc)?;
    Ok(Desk {
        clock: 0,
        hand: None,
        book,
        states,
        inbox,
        ins,
    })
}

/// The start of the next cycle: its clock is 0, all jobs wait, nothing is taken, and the states stay.
pub fn turn(desk: &mut Desk)
    ensures desk { (net : Net) (g : JobGraph) (t : Tables) (unit before ticks : ℕ) → IsDesk net g t unit before desk.old → IsDesk net g t unit ticks desk.new }
    ensures clock { desk.new.clock ≡ 0 }
    ensures hand { desk.new.hand ≡ None }
    ensures states { desk.new.states ≡ desk.old.states }
    ensures held { (net : Net) (g : JobGraph) (t : Tables) (unit before : ℕ) (words : List ℕ) (exec : Execution) (cost : ℕ → List ℤ → List ℤ → ℕ)
        → IsDesk net g t unit before desk.old → held_in g desk.new ≡ fresh_held (plan_of net g t words exec cost) (held_in g desk.old).states }
{
    forget(&mut desk.book, &mut desk.inbox);
    desk.hand = None;
    desk.clock = 0;
}
