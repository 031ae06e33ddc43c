//! The rule on the units of jobs.
ghost use Rattle.std.specs.Prelude.{◌≡◌, ◌<◌, ◌↔◌, length, IsTrue};
ghost use Rattle.std.specs.Int.{bit_at};
ghost use Rattle.graph.specs.Cycle.{first_job};
ghost use Rattle.graph.specs.Net.{IsAllowed};
ghost use Rattle.graph.specs.NetGraph.{IsNetGraph};
ghost use Rattle.tables.specs.Named.{job_at, entry_at};
ghost use Rattle.tables.specs.Progress.{IsOnUnit};
ghost use Rattle.tables.specs.Rules.{HasEachJob, HasUnits};

use crate::table::Tables;
use graph::{Graph, Net};

fn has_unit(mask: u8, unit: u8) -> bool
    ensures { IsTrue result ↔ (bit_at mask unit ≡ 1) }
{
    if unit >= 8 {
        return false;
    }
    mask >> unit & 1 == 1
}

fn allows(net: &Net, task: u8, unit: u8) -> bool
    ensures { IsTrue result ↔ IsAllowed net.now task unit }
{
    has_unit(net.units_of(task), unit)
}

fn task_of(graph: &Graph, job: usize) -> u8
    requires { job < length graph.now.jobs }
    ensures { result ≡ (job_at graph.now job).task }
{
    graph.job_list()[job].task
}

fn unit_of(tables: &Tables, job: usize) -> u8
    requires { job < length tables.now.jobs }
    ensures { result ≡ (entry_at tables.now job).unit }
{
    tables.jobs.as_slice()[job].unit
}

fn first_of_task(net: &Net, graph: &Graph, job: usize) -> usize
    requires net { IsNetGraph net.now graph.now }
    requires job { job < length graph.now.jobs }
    ensures first { result ≡ first_job net.now graph.now.cycle (job_at graph.now job).task }
    ensures inside { result < length graph.now.jobs }
{
    usize::from(graph.first_job(task_of(graph, job)))
}

fn is_on_unit(tables: &Tables, net: &Net, graph: &Graph, job: usize) -> bool
    requires net { IsNetGraph net.now graph.now }
    requires jobs { HasEachJob graph.now tables.now }
    requires job { job < length graph.now.jobs }
    ensures { IsTrue result ↔ IsOnUnit net.now graph.now tables.now job }
{
    let unit = unit_of(tables, job);
    allows(net, task_of(graph, job), unit)
        && unit == unit_of(tables, first_of_task(net, graph, job))
}

/// Whether each job's unit is allowed to its task and is the same for all jobs of the task.
pub(crate) fn has_units(tables: &Tables, net: &Net, graph: &Graph) -> bool
    requires net { IsNetGraph net.now graph.now }
    requires jobs { HasEachJob graph.now tables.now }
    ensures { IsTrue result ↔ HasUnits net.now graph.now tables.now }
{
    for job in 0..graph.job_list().len() {
        if !is_on_unit(tables, net, graph, job) {
            return false;
        }
    }
    true
}
