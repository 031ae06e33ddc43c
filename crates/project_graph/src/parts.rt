//! What a net is made of, from the tasks.
ghost use Rattle.std.specs.Prelude.{◌≡◌, All, IfOk, map};
ghost use Rattle.project_tasks.specs.Entries.{IsRead};
ghost use Rattle.task_ports.specs.Ports.{ports_of, IsTaskPorts};
ghost use Rattle.task_source.specs.declared.built.BuiltTask.{BuiltTask};

use mars_base::Memory;
use sqlite_items::Items;
use std::alloc::Global;
use task_ports::{TaskPorts, ports_of};
use task_source::BuiltTask;

/// The ports of each task.
pub(crate) fn list_ports(alloc: Global, tasks: &[BuiltTask]) -> Result<Items<TaskPorts>, Memory>
    requires { All IsRead tasks.now }
    ensures ports { IfOk result (λ list. list ≡ map (λ (b : BuiltTask). ports_of b.task) tasks.now) }
    ensures kept { IfOk result (All IsTaskPorts) }
{
    let mut list = Items::new(alloc);
    for task in tasks {
        list.push(ports_of(alloc, &task.task)?)?;
    }
    Ok(list)
}

/// The bound of each task, in cycles.
pub fn list_bounds(alloc: Global, tasks: &[BuiltTask]) -> Result<Vec<u32>, Memory>
    ensures { IfOk result (λ list. list.items ≡ map (λ (b : BuiltTask). b.maxt) tasks.now) }
{
    let mut list = Vec::new(alloc);
    for task in tasks {
        list.push(task.maxt)?;
    }
    Ok(list)
}
