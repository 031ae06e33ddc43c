//! The ports of a task.
ghost use Rattle.std.specs.Prelude.{◌≡◌, ◌++◌, ◌∷◌, [], IfOk, OnOk};
ghost use Rattle.mc_tree.specs.CheckedTask.{IsCheckedTask};
ghost use Rattle.task_ports.specs.Ports.{byte_of, port_of, ports_in, ports_of, IsTaskPorts};

use mars_base::{Memory, Port, Role, Text};
use mc_tree::{Cell, Task};
use sqlite_items::Items;
use std::alloc::Global;

/// The ports of a task, each list in the order in which the task declares them.
#[derive(Drop)]
pub struct TaskPorts {
    /// Its in ports.
    pub ins: Items<Port>,
    /// Its out ports.
    pub outs: Items<Port>,
}

/// A width that fits a byte; 0 for any other.
fn byte_of(width: u16) -> u8
    ensures { result ≡ byte_of width }
{
    if width <= 255 { width as u8 } else { 0 }
}

fn port_of(alloc: Global, cell: &Cell) -> Result<Port, Memory>
    ensures { IfOk result (λ port. port ≡ port_of cell.now) }
{
    Ok(Port {
        name: Text::from_slice(alloc, cell.name.as_slice())?,
        width: byte_of(cell.width),
    })
}

/// Adds a cell that is a port.
fn add(alloc: Global, ports: &mut TaskPorts, cell: &Cell) -> Result<(), Memory>
    ensures { OnOk result (ports.new ≡ record { ins = ports.old.ins ++ (ports_in (cell.now ∷ [])).ins; outs = ports.old.outs ++ (ports_in (cell.now ∷ [])).outs }) }
{
    match cell.role {
        Role::In => {
            ports.ins.push(port_of(alloc, cell)?)?;
            Ok(())
        }
        Role::Out => {
            ports.outs.push(port_of(alloc, cell)?)?;
            Ok(())
        }
        Role::State => Ok(()),
        Role::Local => Ok(()),
    }
}

/// The ports of a task in declared order: of each its name and how many words it has. A checked task has
/// at most 16, each of 1 to 16 words, and no two of one name.
pub fn ports_of(alloc: Global, task: &Task) -> Result<TaskPorts, Memory>
    ensures ports { IfOk result (λ ports. ports ≡ ports_of task.now) }
    ensures kept { IsCheckedTask task.now → IfOk result IsTaskPorts }
{
    let mut ports = TaskPorts {
        ins: Items::new(alloc),
        outs: Items::new(alloc),
    };
    for cell in task.cells.as_slice() {
        add(alloc, &mut ports, cell)?;
    }
    Ok(ports)
}
