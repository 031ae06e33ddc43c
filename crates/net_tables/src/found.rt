//! The tables that a search finds.
ghost use Rattle.std.specs.Prelude.{◌≡◌, ◌⊎◌, Err};
ghost use Rattle.graph.specs.NetGraph.{IsNetGraph};
ghost use Rattle.net_tables.specs.Gives.{TablesGive};

use graph::{Graph, Net};
use mars_base::Steps;
use passes::SearchFault;
use refusals::Refusal;
use search::search;
use std::alloc::Global;
use tables::Tables;

/// The tables of the first feasible decision list, within a budget of steps. The budget is spent exactly where
/// the search needs more steps, and there is no table exactly where it needs no more and no list is feasible.
pub fn find_tables(alloc: Global, net: &Net, graph: &Graph, budget: u32) -> Result<Tables, Refusal>
    requires { IsNetGraph net.now graph.now }
    ensures answer { TablesGive net.now graph.now budget result ⊎ (result ≡ Err Refusal.Memory) }
{
    let mut steps = Steps::new();
    match search(alloc, net, graph, budget, &mut steps) {
        Ok(tables) => Ok(tables),
        Err(SearchFault::Memory) => Err(Refusal::Memory),
        Err(SearchFault::Spent) => Err(Refusal::Spent(budget)),
        Err(SearchFault::NoTable) => Err(Refusal::NoTable),
    }
}
