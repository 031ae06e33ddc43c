//! The first place at which a rule for the ports of a net fails.
ghost use Rattle.std.specs.Prelude.{◌≡◌, IfOk, length, position, slice_index};
ghost use Rattle.project_sheet.specs.First.{IsFirstPlace};
ghost use Rattle.project_sheet.specs.Kind.{IsFirstIn};
ghost use Rattle.port_feeds.specs.Feeds.{IsFeedTable};
ghost use Rattle.port_feeds.specs.Placed.{HasFewPorts, HasPlaces};
ghost use Rattle.project_binder.specs.PortFaults.{is_edge_loose, is_sensor_loose, is_actuator_loose, is_uneven, IsUnknownPort, IsPortNeverFed, IsPortFedTwice, IsWidthDifferent, BindFails};

use graph::{Edge, Net, Plug};
use mars_base::Memory;
use port_feeds::{count_feeds, first_fed_twice, first_never_fed};
use project_sheet::first::{Found, first_place};
use project_sheet::{Fault, Kind, Place};
use std::alloc::Global;

fn is_edge_loose(net: &Net, edge: &Edge) -> bool
    ensures { result ≡ is_edge_loose net.now edge.now }
{
    net.outs_of(edge.from_task).len() <= usize::from(edge.from_port)
        || net.ins_of(edge.to_task).len() <= usize::from(edge.to_port)
}

fn is_sensor_loose(net: &Net, sensor: &Plug) -> bool
    ensures { result ≡ is_sensor_loose net.now sensor.now }
{
    net.ins_of(sensor.task).len() <= usize::from(sensor.port)
}

fn is_actuator_loose(net: &Net, actuator: &Plug) -> bool
    ensures { result ≡ is_actuator_loose net.now actuator.now }
{
    net.outs_of(actuator.task).len() <= usize::from(actuator.port)
}

fn first_loose_edge(net: &Net) -> Option<usize>
    ensures { result ≡ position (is_edge_loose net.now) net.now.edges }
{
    net.edges
        .as_slice()
        .iter()
        .position(|edge| is_edge_loose(net, edge))
}

fn first_loose_sensor(net: &Net) -> Option<usize>
    ensures { result ≡ position (is_sensor_loose net.now) net.now.sensors }
{
    net.sensors
        .as_slice()
        .iter()
        .position(|sensor| is_sensor_loose(net, sensor))
}

fn first_loose_actuator(net: &Net) -> Option<usize>
    ensures { result ≡ position (is_actuator_loose net.now) net.now.actuators }
{
    net.actuators
        .as_slice()
        .iter()
        .position(|actuator| is_actuator_loose(net, actuator))
}

/// The first edge, sensor or actuator at a port that its task hasn't.
fn unknown_port(net: &Net) -> Result<Option<Place>, Memory>
    ensures { IfOk result (IsFirstPlace (IsUnknownPort net.now)) }
{
    first_place(Found {
        top: None,
        cluster: None,
        task: None,
        transaction: None,
        edge: first_loose_edge(net),
        sensor: first_loose_sensor(net),
        actuator: first_loose_actuator(net),
    })
}

/// The first task with an in port that nothing feeds.
fn port_never_fed(net: &Net, table: &[u8]) -> Result<Option<Place>, Memory>
    requires places { HasPlaces net.now }
    requires table { IsFeedTable net.now table.now }
    ensures { IfOk result (IsFirstPlace (IsPortNeverFed net.now)) }
{
    first_place(Found {
        top: None,
        cluster: None,
        task: first_never_fed(net, table),
        transaction: None,
        edge: None,
        sensor: None,
        actuator: None,
    })
}

/// The first task with an in port that is fed more than once.
fn port_fed_twice(net: &Net, table: &[u8]) -> Result<Option<Place>, Memory>
    requires places { HasPlaces net.now }
    requires table { IsFeedTable net.now table.now }
    ensures { IfOk result (IsFirstPlace (IsPortFedTwice net.now)) }
{
    first_place(Found {
        top: None,
        cluster: None,
        task: first_fed_twice(net, table),
        transaction: None,
        edge: None,
        sensor: None,
        actuator: None,
    })
}

fn width_of(widths: &[u8], port: u8) -> u8
    ensures { result ≡ slice_index widths.now port }
{
    match widths.get(usize::from(port)) {
        Some(width) => *width,
        None => 0,
    }
}

fn is_uneven(net: &Net, edge: &Edge) -> bool
    ensures { result ≡ is_uneven net.now edge.now }
{
    width_of(net.outs_of(edge.from_task), edge.from_port)
        != width_of(net.ins_of(edge.to_task), edge.to_port)
}

fn first_uneven(net: &Net) -> Option<usize>
    ensures { result ≡ position (is_uneven net.now) net.now.edges }
{
    net.edges
        .as_slice()
        .iter()
        .position(|edge| is_uneven(net, edge))
}

/// The first edge between ports of two widths.
fn width_differs(net: &Net) -> Result<Option<Place>, Memory>
    ensures { IfOk result (IsFirstPlace (IsWidthDifferent net.now)) }
{
    first_place(Found {
        top: None,
        cluster: None,
        task: None,
        transaction: None,
        edge: first_uneven(net),
        sensor: None,
        actuator: None,
    })
}

/// The first fault of a net's ports.
pub(crate) fn port_fault(alloc: Global, net: &Net) -> Result<Option<Fault>, Memory>
    requires { HasFewPorts net.now }
    ensures { IfOk result (IsFirstIn (BindFails net.now) 17 21) }
{
    match unknown_port(net)? {
        Some(place) => {
            return Ok(Some(Fault {
                kind: Kind::UnknownPort,
                place,
            }));
        }
        None => {}
    }
    let table = count_feeds(alloc, net)?;
    match port_never_fed(net, &table)? {
        Some(place) => {
            return Ok(Some(Fault {
                kind: Kind::PortNeverFed,
                place,
            }));
        }
        None => {}
    }
    match port_fed_twice(net, &table)? {
        Some(place) => {
            return Ok(Some(Fault {
                kind: Kind::PortFedTwice,
                place,
            }));
        }
        None => {}
    }
    match width_differs(net)? {
        Some(place) => {
            return Ok(Some(Fault {
                kind: Kind::WidthDiffers,
                place,
            }));
        }
        None => {}
    }
    Ok(None)
}
