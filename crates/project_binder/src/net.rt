//! The net of a project and of its tasks' ports.
ghost use Rattle.std.specs.Prelude.{◌≡◌, ◌≤◌, IfOk, All, length, map, position, bytes_eq};
ghost use Rattle.task_ports.specs.Ports.{IsTaskPorts};
ghost use Rattle.project_binder.specs.NetOf.{port_number, widths_of, ins_at, outs_at, net_task, net_tasks, edge_of, sensor_of, actuator_of, net_of};

use graph::{Edge, Net, NetTask, Plug, Transaction};
use mars_base::{Memory, Port, Text};
use project_reader::{Outlet, Project, TaskEntry, Wire};
use sqlite_items::Items;
use std::alloc::Global;
use task_ports::TaskPorts;

fn has_name(port: &Port, name: &[u8]) -> bool
    ensures { result ≡ bytes_eq port.now.name name.now }
{
    port.name.as_slice() == name
}

fn find_port(ports: &[Port], name: &[u8]) -> Option<usize>
    ensures { result ≡ position (λ p. bytes_eq p.name name.now) ports.now }
{
    ports.iter().position(|port| has_name(port, name))
}

/// The number of the first port of a name, or else how many ports there are.
fn port_number(ports: &[Port], name: &[u8]) -> u8
    requires { length ports.now ≤ 16 }
    ensures { result ≡ port_number ports.now name.now }
{
    match find_port(ports, name) {
        Some(number) => number as u8,
        None => ports.len() as u8,
    }
}

/// The in ports of a task.
fn ins_at(ports: &[TaskPorts], task: u8) -> &[Port]
    requires { All IsTaskPorts ports.now }
    ensures ins { result.now ≡ ins_at ports.now task }
    ensures few { length result.now ≤ 16 }
{
    match ports.get(usize::from(task)) {
        Some(ports) => ports.ins.as_slice(),
        None => &[],
    }
}

/// The out ports of a task.
fn outs_at(ports: &[TaskPorts], task: u8) -> &[Port]
    requires { All IsTaskPorts ports.now }
    ensures outs { result.now ≡ outs_at ports.now task }
    ensures few { length result.now ≤ 16 }
{
    match ports.get(usize::from(task)) {
        Some(ports) => ports.outs.as_slice(),
        None => &[],
    }
}

fn copy(alloc: Global, text: &Text) -> Result<Text, Memory>
    ensures { IfOk result (λ other. other ≡ text.now) }
{
    Text::from_slice(alloc, text.as_slice())
}

fn widths_of(alloc: Global, ports: &[Port]) -> Result<Items<u8>, Memory>
    ensures { IfOk result (λ list. list ≡ widths_of ports.now) }
{
    let mut list = Items::new(alloc);
    for port in ports {
        list.push(port.width)?;
    }
    Ok(list)
}

fn net_task(alloc: Global, task: &TaskEntry, ports: &TaskPorts) -> Result<NetTask, Memory>
    ensures { IfOk result (λ entry. entry ≡ net_task task.now ports.now) }
{
    Ok(NetTask {
        name: copy(alloc, &task.name)?,
        transaction: task.transaction,
        units: task.units,
        ins: widths_of(alloc, ports.ins.as_slice())?,
        outs: widths_of(alloc, ports.outs.as_slice())?,
    })
}

fn net_tasks(
    alloc: Global,
    tasks: &[TaskEntry],
    ports: &[TaskPorts],
) -> Result<Items<NetTask>, Memory>
    requires { length ports.now ≡ length tasks.now }
    ensures { IfOk result (λ list. list ≡ net_tasks tasks.now ports.now) }
{
    let mut list = Items::new(alloc);
    for place in 0..tasks.len() {
        list.push(net_task(alloc, &tasks[place], &ports[place])?)?;
    }
    Ok(list)
}

fn transaction_of(alloc: Global, transaction: &Transaction) -> Result<Transaction, Memory>
    ensures { IfOk result (λ entry. entry ≡ transaction.now) }
{
    Ok(Transaction {
        name: copy(alloc, &transaction.name)?,
        period: transaction.period,
        deadline: transaction.deadline,
    })
}

fn transactions_of(
    alloc: Global,
    transactions: &[Transaction],
) -> Result<Items<Transaction>, Memory>
    ensures { IfOk result (λ list. list ≡ transactions.now) }
{
    let mut list = Items::new(alloc);
    for transaction in transactions {
        list.push(transaction_of(alloc, transaction)?)?;
    }
    Ok(list)
}

fn edge_of(ports: &[TaskPorts], wire: &Wire) -> Edge
    requires { All IsTaskPorts ports.now }
    ensures { result ≡ edge_of ports.now wire.now }
{
    Edge {
        from_task: wire.from.task,
        from_port: port_number(outs_at(ports, wire.from.task), wire.from.port.as_slice()),
        to_task: wire.to.task,
        to_port: port_number(ins_at(ports, wire.to.task), wire.to.port.as_slice()),
    }
}

fn sensor_of(alloc: Global, ports: &[TaskPorts], outlet: &Outlet) -> Result<Plug, Memory>
    requires { All IsTaskPorts ports.now }
    ensures { IfOk result (λ plug. plug ≡ sensor_of ports.now outlet.now) }
{
    Ok(Plug {
        name: copy(alloc, &outlet.name)?,
        task: outlet.port.task,
        port: port_number(ins_at(ports, outlet.port.task), outlet.port.port.as_slice()),
    })
}

fn actuator_of(alloc: Global, ports: &[TaskPorts], outlet: &Outlet) -> Result<Plug, Memory>
    requires { All IsTaskPorts ports.now }
    ensures { IfOk result (λ plug. plug ≡ actuator_of ports.now outlet.now) }
{
    Ok(Plug {
        name: copy(alloc, &outlet.name)?,
        task: outlet.port.task,
        port: port_number(
            outs_at(ports, outlet.port.task),
            outlet.port.port.as_slice(),
        ),
    })
}

fn edges_of(alloc: Global, ports: &[TaskPorts], wires: &[Wire]) -> Result<Items<Edge>, Memory>
    requires { All IsTaskPorts ports.now }
    ensures { IfOk result (λ list. list ≡ map (edge_of ports.now) wires.now) }
{
    let mut list = Items::new(alloc);
    for wire in wires {
        list.push(edge_of(ports, wire))?;
    }
    Ok(list)
}

fn sensors_of(alloc: Global, ports: &[TaskPorts], outlets: &[Outlet]) -> Result<Items<Plug>, Memory>
    requires { All IsTaskPorts ports.now }
    ensures { IfOk result (λ list. list ≡ map (sensor_of ports.now) outlets.now) }
{
    let mut list = Items::new(alloc);
    for outlet in outlets {
        list.push(sensor_of(alloc, ports, outlet)?)?;
    }
    Ok(list)
}

fn actuators_of(
    alloc: Global,
    ports: &[TaskPorts],
    outlets: &[Outlet],
) -> Result<Items<Plug>, Memory>
    requires { All IsTaskPorts ports.now }
    ensures { IfOk result (λ list. list ≡ map (actuator_of ports.now) outlets.now) }
{
    let mut list = Items::new(alloc);
    for outlet in outlets {
        list.push(actuator_of(alloc, ports, outlet)?)?;
    }
    Ok(list)
}

/// The net of a project whose tasks have these ports. A reference to no port has the number behind the
/// last port's.
pub(crate) fn net_of(alloc: Global, project: &Project, ports: &[TaskPorts]) -> Result<Net, Memory>
    requires count { length ports.now ≡ length project.now.tasks }
    requires ports { All IsTaskPorts ports.now }
    ensures { IfOk result (λ net. net ≡ net_of project.now ports.now) }
{
    Ok(Net {
        shape: project.shape,
        tasks: net_tasks(alloc, project.tasks.as_slice(), ports)?,
        transactions: transactions_of(alloc, project.transactions.as_slice())?,
        edges: edges_of(alloc, ports, project.edges.as_slice())?,
        sensors: sensors_of(alloc, ports, project.sensors.as_slice())?,
        actuators: actuators_of(alloc, ports, project.actuators.as_slice())?,
    })
}
