//! Projects bound to the ports of their tasks as rows: what `read_project`, `bind` and `sound` make of a
//! text together. It is for tests.
#![tactic(auto)]

ghost use Rattle.std.specs.Prelude.{◌≡◌, All, IfOk, length};
ghost use Rattle.task_ports.specs.Ports.{HasPortWidth, IsTaskPorts};

use graph::sound;
use mars_base::{Memory, Port, Text};
use project_binder::{BindFault, bind};
use project_reader::read_project;
use project_sheet::Place;
use sqlite_items::Items;
use std::alloc::Global;
use task_ports::TaskPorts;

#[cfg(test)]
mod tests;

fn one_port(alloc: Global, row: (&str, u8)) -> Result<Items<Port>, Memory>
    ensures one { IfOk result (λ ports. length ports ≡ 1) }
    ensures width { IfOk result (λ ports. All HasPortWidth ports) }
{
    let mut ports = Items::new(alloc);
    ports.push(Port {
        name: Text::from_slice(alloc, row.0.as_bytes())?,
        width: row.1.max(1).min(16),
    })?;
    Ok(ports)
}

fn task_of(alloc: Global, taken: (&str, u8), given: (&str, u8)) -> Result<TaskPorts, Memory>
    ensures { IfOk result IsTaskPorts }
{
    Ok(TaskPorts {
        ins: one_port(alloc, taken)?,
        outs: one_port(alloc, given)?,
    })
}

/// Tasks with one in port and one out port each, whose widths are brought within 1 to 16.
pub fn tasks_of(alloc: Global, rows: &[((&str, u8), (&str, u8))]) -> Result<Vec<TaskPorts>, Memory>
    ensures { IfOk result (λ tasks. All IsTaskPorts tasks.items) }
{
    let mut tasks = Vec::new(alloc);
    for row in rows {
        tasks.push(task_of(alloc, row.0, row.1)?)?;
    }
    Ok(tasks)
}

/// The kind and the place of the fault of a text and its tasks. Kind 0 is a sound net, 1 a text with a fault
/// of its own, 2 a net that isn't sound, 3 want of memory, 4 another number of tasks.
pub fn answer(alloc: Global, text: &str, tasks: &[TaskPorts]) -> (u8, Option<Place>)
    requires { All IsTaskPorts tasks.now }
{
    let Ok(project) = read_project(alloc, text.as_bytes()) else {
        return (1, None);
    };
    if tasks.len() != project.tasks.len() {
        return (4, None);
    }
    match bind(alloc, &project, tasks) {
        Ok(net) => match sound(alloc, &net) {
            Ok(true) => (0, None),
            Ok(false) => (2, None),
            Err(Memory) => (3, None),
        },
        Err(BindFault::Bad(fault)) => (fault.kind.number(), Some(fault.place)),
        Err(BindFault::Memory) => (3, None),
    }
}
