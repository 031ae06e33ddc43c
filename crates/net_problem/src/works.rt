//! The jobs of a graph as what is to be placed.
ghost use Rattle.std.specs.Prelude.{◌≡◌, ◌<◌, IfOk, length};
ghost use Rattle.decisions.specs.IsProblem.{IsProblem};
ghost use Rattle.decisions.specs.ProblemOf.{work_of, works_of, problem_of};
ghost use Rattle.graph.specs.NetGraph.{IsNetGraph};
ghost use Rattle.tables.specs.Named.{job_at};
ghost use Rattle.tdma.specs.Layout.{IsLayout, cycle_ticks};
ghost use Rattle.tables.specs.Valid.{bus_of};

use crate::feeds::feeds_of;
use decisions::{Problem, Work};
use graph::{Graph, Job, Net};
use mars_base::Memory;
use sqlite_items::Items;
use std::alloc::Global;
use tdma::Round;

fn job_of(graph: &Graph, number: usize) -> Job
    requires { number < length graph.now.jobs }
    ensures { result ≡ job_at graph.now number }
{
    graph.job_list()[number]
}

fn work_of(alloc: Global, net: &Net, graph: &Graph, number: usize) -> Result<Work, Memory>
    requires net { IsNetGraph net.now graph.now }
    requires number { number < length graph.now.jobs }
    ensures { IfOk result (λ work. work ≡ work_of net.now graph.now number) }
{
    let job = job_of(graph, number);
    Ok(Work {
        task: job.task,
        instance: job.instance,
        release: job.release,
        deadline: job.deadline,
        length: job.length,
        remaining: graph.remaining(number as u16),
        units: net.units_of(job.task),
        feeds: feeds_of(alloc, net, graph, job.task, job.instance)?,
    })
}

fn works_of(alloc: Global, net: &Net, graph: &Graph) -> Result<Items<Work>, Memory>
    requires { IsNetGraph net.now graph.now }
    ensures { IfOk result (λ works. works ≡ works_of net.now graph.now (length graph.now.jobs)) }
{
    let mut works = Items::new(alloc);
    for number in 0..graph.job_list().len() {
        works.push(work_of(alloc, net, graph, number)?)?;
    }
    Ok(works)
}

fn round_of(net: &Net, graph: &Graph) -> Round
    requires { IsNetGraph net.now graph.now }
    ensures round { result ≡ bus_of net.now graph.now }
    ensures cycle { cycle_ticks result ≡ graph.now.cycle }
    ensures limits { IsLayout result }
{
    Round::new(&net.shape, graph.cycle())
}

/// What is to be placed: the jobs of the graph by number, with what feeds them, and the bus.
pub fn problem_of(alloc: Global, net: &Net, graph: &Graph) -> Result<Problem, Memory>
    requires { IsNetGraph net.now graph.now }
    ensures problem { IfOk result (λ problem. problem ≡ problem_of net.now graph.now) }
    ensures limits { IfOk result IsProblem }
{
    let round = round_of(net, graph);
    let edges = net.edges.len() as u16;
    let works = works_of(alloc, net, graph)?;
    Ok(Problem {
        round,
        edges,
        works,
    })
}
