//! The tables of a project.
ghost use Rattle.std.specs.Prelude.{◌≡◌, ℕ, List, Option, IfOk};
ghost use Rattle.project_tables.specs.Planned.{planned, plain_planned, IsPlanned};
ghost use Rattle.refusals.specs.Causes.{counts};
ghost use Rattle.stages.specs.Stage.{Does, given};
ghost use Rattle.stages.specs.World.{held};

use graph::{Graph, Net};
use mars_base::Shelf;
use net_tables::find_tables;
use project_graph::{ProjectGraph, read_graph};
use refusals::Refusal;
use sqlite_items::Items;
use std::alloc::Global;
use tables::Tables;
use task_source::BuiltTask;

/// A project with its tables.
#[derive(Drop)]
pub struct ProjectPlan {
    /// The net.
    pub net: Net,
    /// The graph of the jobs of a cycle.
    pub graph: Graph,
    /// The tasks, in the net's order, each with its code and its bound.
    pub tasks: Items<BuiltTask>,
    /// The tables.
    pub tables: Tables,
}

/// A project with its tables, from its file on: what `read_graph` refuses, and then what `find_tables` does.
pub fn plan_project<H: Shelf>(
    alloc: Global,
    shelf: &mut H,
    project: &str,
    budget: u32,
) -> Result<ProjectPlan, Refusal>
    ensures answer { (left out : Option (List ℕ)) (input output : ℕ) → Does (planned project.now budget)
        (held (H.holds shelf.old) left out) (held (H.holds shelf.new) left out)
        (counts (H.failed_reads shelf.old) (H.failed_writes shelf.old) input output)
        (counts (H.failed_reads shelf.new) (H.failed_writes shelf.new) input output)
        (given plain_planned result) }
    ensures planned { IfOk result IsPlanned }
    ensures files { H.holds shelf.new ≡ H.holds shelf.old }
    ensures writes { H.failed_writes shelf.new ≡ H.failed_writes shelf.old }
{
    let ProjectGraph { net, graph, tasks } = match read_graph(alloc, shelf, project) {
        Ok(it) => it,
        Err(refused) => return Err(refused),
    };
    let tables = match find_tables(alloc, &net, &graph, budget) {
        Ok(tables) => tables,
        Err(refused) => return Err(refused),
    };
    Ok(ProjectPlan {
        net,
        graph,
        tasks,
        tables,
    })
}
