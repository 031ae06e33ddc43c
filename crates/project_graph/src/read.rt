//! A project with its tasks, from its file on.
ghost use Rattle.std.specs.Prelude.{◌≡◌, ℕ, List, Option, All, IfOk, length, map};
ghost use Rattle.graph.specs.NetGraph.{IsNetGraph};
ghost use Rattle.project_graph.specs.Graphed.{graphed, netted, plain_graphed, IsGraphed};
ghost use Rattle.project_rules.specs.Kept.{KeepsProject};
ghost use Rattle.project_tasks.specs.Entries.{IsRead};
ghost use Rattle.refusals.specs.Causes.{Counts, counts};
ghost use Rattle.stages.specs.Stage.{Does, given};
ghost use Rattle.stages.specs.World.{Held, held};
ghost use Rattle.task_source.specs.Built.{plain_built};

use crate::parts::{list_bounds, list_ports};
use graph::{Graph, Net};
use mars_base::Shelf;
use net_graph::graph_of;
use project_file::read_project_file;
use project_net::bind_project;
use project_reader::Project;
use project_tasks::read_tasks;
use refusals::Refusal;
use sqlite_items::Items;
use std::alloc::Global;
use task_source::BuiltTask;

/// A project: its net, the graph of its jobs, and its tasks with their codes and bounds, in the net's order.
#[derive(Drop)]
pub struct ProjectGraph {
    /// The net.
    pub net: Net,
    /// The graph of the jobs of a cycle, each as long as its task's bound.
    pub graph: Graph,
    /// The tasks.
    pub tasks: Items<BuiltTask>,
}

/// The project of a file, with the tasks of the files that it names. The first refusal is the answer: of the
/// file's read, of a rule of projects that speaks of the file alone, of a task's file in the project's order,
/// of a rule that speaks of ports, of a cycle above 65,536 ticks, of more than 512 jobs, and of more than
/// 4,096 sensor words.
pub fn read_graph<H: Shelf>(
    alloc: Global,
    shelf: &mut H,
    project: &str,
) -> Result<ProjectGraph, Refusal>
    ensures answer { (left out : Option (List ℕ)) (input output : ℕ) → Does (graphed project.now)
        (held (H.holds shelf.old) left out) (held (H.holds shelf.new) left out)
        (counts (H.failed_reads shelf.old) (H.failed_writes shelf.old) input output)
        (counts (H.failed_reads shelf.new) (H.failed_writes shelf.new) input output)
        (given plain_graphed result) }
    ensures graphed { IfOk result IsGraphed }
    ensures files { H.holds shelf.new ≡ H.holds shelf.old }
    ensures writes { H.failed_writes shelf.new ≡ H.failed_writes shelf.old }
{
    let entries = match read_project_file(alloc, shelf, project) {
        Ok(entries) => entries,
        Err(refused) => return Err(refused),
    };
    let tasks = match read_tasks(alloc, shelf, entries.tasks.as_slice()) {
        Ok(tasks) => tasks,
        Err(refused) => return Err(refused),
    };
    join_tasks(alloc, project, &entries, tasks)
}

// The net of a project and its tasks, and its graph.
fn join_tasks(
    alloc: Global,
    project: &str,
    entries: &Project,
    tasks: Items<BuiltTask>,
) -> Result<ProjectGraph, Refusal>
    requires kept { KeepsProject entries.now }
    requires count { length tasks ≡ length entries.now.tasks }
    requires read { All IsRead tasks }
    ensures answer { (b : Held) (c : Counts) → Does (netted project.now entries.now (map plain_built tasks)) b b c c (given plain_graphed result) }
    ensures graphed { IfOk result IsGraphed }
{
    let Ok(ports) = list_ports(alloc, tasks.as_slice()) else {
        return Err(Refusal::Memory);
    };
    let net = match bind_project(alloc, project, entries, ports.as_slice()) {
        Ok(net) => net,
        Err(refused) => return Err(refused),
    };
    let Ok(maxts) = list_bounds(alloc, tasks.as_slice()) else {
        return Err(Refusal::Memory);
    };
    let graph = match graph_of(alloc, project, &net, maxts.as_slice()) {
        Ok(graph) => graph,
        Err(refused) => return Err(refused),
    };
    Ok(ProjectGraph { net, graph, tasks })
}
