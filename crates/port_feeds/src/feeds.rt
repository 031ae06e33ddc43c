//! How often each in port is fed, as a table.
ghost use Rattle.std.specs.Prelude.{◌≡◌, ◌+◌, ◌<◌, ◌≤◌, ◌↔◌, ℕ, min, IsTrue, IfOk, length, slice_index, slice_set};
ghost use Rattle.graph.specs.Net.{ins_of};
ghost use Rattle.graph.specs.FeederTable.{place_of};
ghost use Rattle.port_feeds.specs.Feeds.{IsCounted, IsFeedTable, IsFedTimes, IsNeverFed, IsFedTwice, IsLeastTask};
ghost use Rattle.port_feeds.specs.Placed.{HasPlaces};

use graph::Net;
use mars_base::Memory;
use std::alloc::Global;

/// The place of an in port in a table of 16 ports for each of 64 tasks.
fn place_of(task: u8, port: u8) -> usize
    requires task { task < 64 }
    requires port { port < 16 }
    ensures place { result ≡ place_of task port }
    ensures inside { result < 1024 }
{
    usize::from(task) * 16 + usize::from(port)
}

/// Counts one more feeder of an in port: one, two, or still two.
fn note(table: &mut [u8], task: u8, port: u8)
    requires size { length table.old ≡ 1024 }
    requires task { task < 64 }
    requires port { port < 16 }
    ensures { table.new ≡ slice_set table.old (place_of task port) (min 2 (slice_index table.old (place_of task port) + 1)) }
{
    let place = place_of(task, port);
    let times = table[place].min(1) + 1;
    table[place] = times;
}

/// Counts the edges to each in port.
fn count_edges(net: &Net, table: &mut [u8])
    requires places { HasPlaces net.now }
    requires table { IsCounted net.now 0 0 table.old }
    ensures { IsCounted net.now (length net.now.edges) 0 table.new }
{
    let edges = net.edges.as_slice();
    for number in 0..edges.len() {
        let edge = edges[number];
        note(table, edge.to_task, edge.to_port);
    }
}

/// Counts the sensors of each in port beside the edges.
fn count_sensors(net: &Net, table: &mut [u8])
    requires places { HasPlaces net.now }
    requires table { IsCounted net.now (length net.now.edges) 0 table.old }
    ensures { IsCounted net.now (length net.now.edges) (length net.now.sensors) table.new }
{
    let sensors = net.sensors.as_slice();
    for number in 0..sensors.len() {
        let sensor = &sensors[number];
        note(table, sensor.task, sensor.port);
    }
}

/// The table of how often each in port is fed: 0 for never, 1 for once, 2 for more. It has 16 ports for each
/// of 64 tasks.
pub fn count_feeds(alloc: Global, net: &Net) -> Result<Vec<u8>, Memory>
    requires { HasPlaces net.now }
    ensures { IfOk result (λ table. IsFeedTable net.now table.items) }
{
    let mut table = vec![in alloc; 0; 1024]?;
    count_edges(net, &mut table);
    count_sensors(net, &mut table);
    Ok(table)
}

/// Whether a task has an in port that is fed so often.
fn is_fed_times(net: &Net, table: &[u8], times: u8, task: u8) -> bool
    requires places { HasPlaces net.now }
    requires table { IsFeedTable net.now table.now }
    requires task { task < 64 }
    ensures { IsTrue result ↔ IsFedTimes net.now times task }
{
    let ports = net.ins_of(task).len() as u8;
    for port in 0..ports {
        if table[place_of(task, port)] == times {
            return true;
        }
    }
    false
}

/// The first task with an in port that is fed so often.
fn first_fed_times(net: &Net, table: &[u8], times: u8) -> Option<usize>
    requires places { HasPlaces net.now }
    requires table { IsFeedTable net.now table.now }
    ensures { IsLeastTask (IsFedTimes net.now times) result }
{
    let tasks = net.tasks.len() as u8;
    for task in 0..tasks {
        if is_fed_times(net, table, times, task) {
            return Some(usize::from(task));
        }
    }
    None
}

/// The first task with an in port that nothing feeds.
pub fn first_never_fed(net: &Net, table: &[u8]) -> Option<usize>
    requires places { HasPlaces net.now }
    requires table { IsFeedTable net.now table.now }
    ensures { IsLeastTask (IsNeverFed net.now) result }
{
    first_fed_times(net, table, 0)
}

/// The first task with an in port that more than one edge or sensor feeds.
pub fn first_fed_twice(net: &Net, table: &[u8]) -> Option<usize>
    requires places { HasPlaces net.now }
    requires table { IsFeedTable net.now table.now }
    ensures { IsLeastTask (IsFedTwice net.now) result }
{
    first_fed_times(net, table, 2)
}
