//! The graph of a net's jobs, or the limit that is passed.
ghost use Rattle.std.specs.Prelude.{◌≡◌, ◌⊎◌, Err, IfOk, length};
ghost use Rattle.graph.specs.JobGraph.{IsJobGraph};
ghost use Rattle.graph.specs.NetGraph.{IsNetGraphFor};
ghost use Rattle.graph.specs.Sound.{KeepsRules};
ghost use Rattle.net_graph.specs.Gives.{GraphGives, past_limit};
ghost use Rattle.plant.specs.Lengths.{lengths_of};

use graph::{Graph, GraphFault, Net};
use mars_base::Text;
use plant::lengths_of;
use refusals::{Fault, Refusal};
use std::alloc::Global;

/// The graph of the jobs of a project's net, each as long as its task's bound in cycles asks for. Refused where
/// a cycle would have more than 65,536 ticks, more than 512 jobs or more than 4,096 sensor words, the first of
/// these, and where there is no memory.
pub fn graph_of(alloc: Global, project: &str, net: &Net, maxts: &[u32]) -> Result<Graph, Refusal>
    requires rules { KeepsRules net.now }
    requires count { length maxts.now ≡ length net.now.tasks }
    ensures answer { GraphGives project.now net.now maxts.now result ⊎ (result ≡ Err Refusal.Memory) }
    ensures graph { IfOk result (IsNetGraphFor net.now (lengths_of maxts.now net.now.shape.cycles_per_tick)) }
{
    let Ok(name) = Text::from_slice(alloc, project.as_bytes()) else {
        return Err(Refusal::Memory);
    };
    let Ok(lengths) = lengths_of(alloc, maxts, net.shape.cycles_per_tick) else {
        return Err(Refusal::Memory);
    };
    match Graph::jobs(alloc, net, lengths.as_slice()) {
        Ok(graph) => Ok(whole(graph)),
        Err(fault) => Err(past_limit(name, fault)),
    }
}

// A graph, whose own facts are told.
fn whole(graph: Graph) -> Graph
    ensures same { result ≡ graph }
    ensures whole { IsJobGraph result }
{
    graph
}

// The refusal for a limit that is passed.
fn past_limit(project: Text, fault: GraphFault) -> Refusal
    ensures { result ≡ past_limit project fault }
{
    match fault {
        GraphFault::CycleTooLong(ticks) => Refusal::Fault(Fault::Cycle { project, ticks }),
        GraphFault::TooManyJobs(count) => Refusal::Fault(Fault::Jobs { project, count }),
        GraphFault::TooManySensorWords(count) => {
            Refusal::Fault(Fault::SensorWords { project, count })
        }
        GraphFault::Memory => Refusal::Memory,
    }
}
