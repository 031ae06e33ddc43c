//! The graph of a net that may be any net.
ghost use Rattle.std.specs.Prelude.{IfOk, IfSome};
ghost use Rattle.graph.specs.NetGraph.{IsNetGraph, IsNetGraphFor};
ghost use Rattle.graph.specs.Sound.{IsSound};

use graph::{Graph, GraphFault, Net, sound};
use std::alloc::Global;

/// The graph of a sound net for a length in ticks of each task's jobs; None where the net isn't sound, or where
/// there aren't as many lengths as tasks, or one is 0.
pub fn graph_of(alloc: Global, net: &Net, lengths: &[u32]) -> Result<Option<Graph>, GraphFault>
    ensures graph { IfOk result (λ answer. IfSome answer (IsNetGraphFor net.now lengths.now)) }
    ensures net { IfOk result (λ answer. IfSome answer (IsNetGraph net.now)) }
    ensures sound { IfOk result (λ answer. IfSome answer (λ _. IsSound net.now)) }
{
    if !sound(alloc, net)? {
        return Ok(None);
    }
    if lengths.len() != net.tasks.len() {
        return Ok(None);
    }
    if !lengths.iter().all(|length| 1 <= *length) {
        return Ok(None);
    }
    let graph = Graph::jobs(alloc, net, lengths)?;
    Ok(Some(graph))
}
