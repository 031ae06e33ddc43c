//! The rules for the single entries of a net.
ghost use Rattle.std.specs.Prelude.{◌≡◌, ℕ, ◌<◌, ◌↔◌, IsTrue, IfOk, All, Any, length};
ghost use Rattle.mars_base.specs.Shape.{IsShape};
ghost use Rattle.graph.specs.declared.net.NetTask.{NetTask};
ghost use Rattle.graph.specs.Rules.{IsWidth, IsTask, IsTransaction, IsEdge, IsSensor, IsActuator};
ghost use Rattle.graph.specs.Sound.{HasCounts, HasEntries, HasNames};

use crate::names::are_names;
use crate::net::{Edge, Net, NetTask, Plug, Transaction};
use mars_base::Memory;
use std::alloc::Global;

/// Whether no section has too many entries, and there are tasks and transactions.
pub(crate) fn has_counts(net: &Net) -> bool
    ensures { IsTrue result ↔ HasCounts net.now }
{
    1 <= net.tasks.len()
        && net.tasks.len() <= 64
        && 1 <= net.transactions.len()
        && net.transactions.len() <= 32
        && net.edges.len() <= 1024
        && net.sensors.len() <= 1024
        && net.actuators.len() <= 1024
}

fn are_widths(ports: &[u8]) -> bool
    ensures { IsTrue result ↔ All IsWidth ports.now }
{
    ports.iter().all(|width| 1 <= *width && *width <= 16)
}

fn is_task(net: &Net, task: &NetTask) -> bool
    requires { IsShape net.now.shape }
    ensures { IsTrue result ↔ IsTask net.now task.now }
{
    1 <= task.units
        && u32::from(task.units) < 1 << net.shape.units
        && usize::from(task.transaction) < net.transactions.len()
        && task.ins.len() <= 16
        && task.outs.len() <= 16 - task.ins.len()
        && are_widths(task.ins.as_slice())
        && are_widths(task.outs.as_slice())
}

fn is_transaction(transaction: &Transaction) -> bool
    ensures { IsTrue result ↔ IsTransaction transaction.now }
{
    1 <= transaction.period
        && transaction.period <= 65_536
        && 1 <= transaction.deadline
        && transaction.deadline <= transaction.period
}

fn is_edge(net: &Net, edge: &Edge) -> bool
    ensures { IsTrue result ↔ IsEdge net.now edge.now }
{
    let outs = net.outs_of(edge.from_task);
    let ins = net.ins_of(edge.to_task);
    usize::from(edge.from_task) < net.tasks.len()
        && usize::from(edge.to_task) < net.tasks.len()
        && net.transaction_of(edge.from_task) == net.transaction_of(edge.to_task)
        && usize::from(edge.from_port) < outs.len()
        && usize::from(edge.to_port) < ins.len()
        && outs[usize::from(edge.from_port)] == ins[usize::from(edge.to_port)]
}

fn is_sensor(net: &Net, sensor: &Plug) -> bool
    ensures { IsTrue result ↔ IsSensor net.now sensor.now }
{
    usize::from(sensor.task) < net.tasks.len()
        && usize::from(sensor.port) < net.ins_of(sensor.task).len()
}

fn is_actuator(net: &Net, actuator: &Plug) -> bool
    ensures { IsTrue result ↔ IsActuator net.now actuator.now }
{
    usize::from(actuator.task) < net.tasks.len()
        && usize::from(actuator.port) < net.outs_of(actuator.task).len()
}

fn is_used(tasks: &[NetTask], transaction: usize) -> bool
    ensures { IsTrue result ↔ Any (λ (t : NetTask). t.transaction ≡ transaction) tasks.now }
{
    tasks
        .iter()
        .any(|task| usize::from(task.transaction) == transaction)
}

fn are_used(net: &Net) -> bool
    ensures { IsTrue result ↔ ((t : ℕ) → t < length net.now.transactions → Any (λ (task : NetTask). task.transaction ≡ t) net.now.tasks) }
{
    for transaction in 0..net.transactions.len() {
        if !is_used(net.tasks.as_slice(), transaction) {
            return false;
        }
    }
    true
}

fn are_tasks(net: &Net) -> bool
    requires { IsShape net.now.shape }
    ensures { IsTrue result ↔ All (IsTask net.now) net.now.tasks }
{
    net.tasks.as_slice().iter().all(|task| is_task(net, task))
}

fn are_transactions(transactions: &[Transaction]) -> bool
    ensures { IsTrue result ↔ All IsTransaction transactions.now }
{
    transactions
        .iter()
        .all(|transaction| is_transaction(transaction))
}

fn are_edges(net: &Net) -> bool
    ensures { IsTrue result ↔ All (IsEdge net.now) net.now.edges }
{
    net.edges.as_slice().iter().all(|edge| is_edge(net, edge))
}

fn are_sensors(net: &Net) -> bool
    ensures { IsTrue result ↔ All (IsSensor net.now) net.now.sensors }
{
    net.sensors
        .as_slice()
        .iter()
        .all(|sensor| is_sensor(net, sensor))
}

fn are_actuators(net: &Net) -> bool
    ensures { IsTrue result ↔ All (IsActuator net.now) net.now.actuators }
{
    net.actuators
        .as_slice()
        .iter()
        .all(|actuator| is_actuator(net, actuator))
}

/// Whether each entry by itself is in order, and each transaction has a task.
pub(crate) fn has_entries(net: &Net) -> bool
    requires { IsShape net.now.shape }
    ensures { IsTrue result ↔ HasEntries net.now }
{
    are_tasks(net)
        && are_transactions(net.transactions.as_slice())
        && are_used(net)
        && are_edges(net)
        && are_sensors(net)
        && are_actuators(net)
}

/// Whether the names in each section have their form and differ.
pub(crate) fn has_names(alloc: Global, net: &Net) -> Result<bool, Memory>
    ensures { IfOk result (λ answer. IsTrue answer ↔ HasNames net.now) }
{
    Ok(
        are_names(alloc, net.tasks.as_slice())?
            && are_names(alloc, net.transactions.as_slice())?
            && are_names(alloc, net.sensors.as_slice())?
            && are_names(alloc, net.actuators.as_slice())?,
    )
}
