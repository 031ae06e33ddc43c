//! What feeds each in port, as a table.
ghost use Rattle.std.specs.Prelude.{◌≡◌, ◌+◌, ◌*◌, ◌<◌, ◌≤◌, ◌↔◌, ℕ, true, false, is_some, IsTrue, IfOk, MatchOption, length};
ghost use Rattle.graph.specs.Net.{ins_of};
ghost use Rattle.graph.specs.Sound.{HasCounts, HasEntries, IsFedOnce};
ghost use Rattle.graph.specs.FeederTable.{place_of, feeder_in, IsTable, IsBefore, IsFeederTable};

use crate::feeder::Feeder;
use crate::net::Net;
use mars_base::Memory;
use std::alloc::Global;

/// The place of an in port in a table of 16 ports for each of 64 tasks.
pub(crate) fn place_of(task: u8, port: u8) -> usize
    requires task { task < 64 }
    requires port { port < 16 }
    ensures place { result ≡ place_of task port }
    ensures inside { result < 1024 }
{
    usize::from(task) * 16 + usize::from(port)
}

fn is_fed(table: &[Option<Feeder>], task: u8, port: u8) -> bool
    requires size { length table.now ≡ 1024 }
    requires task { task < 64 }
    requires port { port < 16 }
    ensures { result ≡ is_some (feeder_in table.now task port) }
{
    table[place_of(task, port)].is_some()
}

/// Notes all edges in a table without any feeder, up to the first that goes to a port of an earlier one.
fn note_edges(net: &Net, table: &mut Vec<Option<Feeder>>) -> bool
    requires counts { HasCounts net.now }
    requires entries { HasEntries net.now }
    requires table { IsTable net.now table.old.items (IsBefore 0 0) }
    ensures noted { result ≡ true → IsTable net.now table.new.items (IsBefore (length net.now.edges) 0) }
    ensures twice { result ≡ false → IsFedOnce net.now → ⊥ }
{
    let edges = net.edges.as_slice();
    for number in 0..edges.len() as u16 {
        let edge = edges[usize::from(number)];
        if is_fed(table, edge.to_task, edge.to_port) {
            return false;
        }
        table[place_of(edge.to_task, edge.to_port)] = Some(Feeder::Edge(number));
    }
    true
}

/// Notes all sensors beside the edges, up to the first that feeds a port that is fed before.
fn note_sensors(net: &Net, table: &mut Vec<Option<Feeder>>) -> bool
    requires counts { HasCounts net.now }
    requires entries { HasEntries net.now }
    requires table { IsTable net.now table.old.items (IsBefore (length net.now.edges) 0) }
    ensures noted { result ≡ true → IsTable net.now table.new.items (IsBefore (length net.now.edges) (length net.now.sensors)) }
    ensures twice { result ≡ false → IsFedOnce net.now → ⊥ }
{
    let sensors = net.sensors.as_slice();
    for number in 0..sensors.len() as u16 {
        let sensor = &sensors[usize::from(number)];
        if is_fed(table, sensor.task, sensor.port) {
            return false;
        }
        table[place_of(sensor.task, sensor.port)] = Some(Feeder::Sensor(number));
    }
    true
}

/// The table of what feeds each in port; None where a port is fed twice.
pub(crate) fn feeders(alloc: Global, net: &Net) -> Result<Option<Vec<Option<Feeder>>>, Memory>
    requires counts { HasCounts net.now }
    requires entries { HasEntries net.now }
    ensures { IfOk result (λ found. MatchOption found (IsFedOnce net.now → ⊥) (λ table. IsFeederTable net.now table.items)) }
{
    let mut table = vec![in alloc; None; 1024]?;
    if !note_edges(net, &mut table) {
        return Ok(None);
    }
    if !note_sensors(net, &mut table) {
        return Ok(None);
    }
    Ok(Some(table))
}

/// Whether all in ports of a task are fed.
fn is_task_fed(net: &Net, table: &[Option<Feeder>], task: u8) -> bool
    requires size { length table.now ≡ 1024 }
    requires task { task < 64 }
    requires ports { length (ins_of net.now task) ≤ 16 }
    ensures { IsTrue result ↔ ((port : ℕ) → port < length (ins_of net.now task) → is_some (feeder_in table.now task port) ≡ true) }
{
    let ports = net.ins_of(task).len() as u8;
    for port in 0..ports {
        if !is_fed(table, task, port) {
            return false;
        }
    }
    true
}

/// Whether all in ports of all tasks are fed.
fn are_tasks_fed(net: &Net, table: &[Option<Feeder>]) -> bool
    requires counts { HasCounts net.now }
    requires entries { HasEntries net.now }
    requires size { length table.now ≡ 1024 }
    ensures { IsTrue result ↔ ((task port : ℕ) → port < length (ins_of net.now task) → is_some (feeder_in table.now task port) ≡ true) }
{
    let tasks = net.tasks.len() as u8;
    for task in 0..tasks {
        if !is_task_fed(net, table, task) {
            return false;
        }
    }
    true
}

/// Whether each in port is fed by exactly one edge or sensor.
pub(crate) fn is_fed_once(alloc: Global, net: &Net) -> Result<bool, Memory>
    requires counts { HasCounts net.now }
    requires entries { HasEntries net.now }
    ensures { IfOk result (λ answer. IsTrue answer ↔ IsFedOnce net.now) }
{
    let Some(table) = feeders(alloc, net)? else {
        return Ok(false);
    };
    Ok(are_tasks_fed(net, table.as_slice()))
}
