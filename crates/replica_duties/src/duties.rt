//! What a replica looks up.
ghost use Rattle.std.specs.Prelude.{◌≡◌, ◌<◌, ◌≤◌, IfOk, length};
ghost use Rattle.graph.specs.NetGraph.{IsNetGraph};
ghost use Rattle.tables.specs.Valid.{AreValid, bus_of};
ghost use Rattle.tick_parts.specs.Shows.{outputs_in};
ghost use Rattle.replica_duties.specs.Duties.{AreDutiesOf};

use agenda::Schedule;
use graph::{Graph, Net};
use job_inputs::sensor_starts;
use mars_base::{Memory, Side};
use std::alloc::Global;
use tables::Tables;
use tdma::Round;
use timetable::{arrivals, feeds, sendings, starts};

/// All that a replica looks up. Nothing of it changes at run time.
#[derive(Drop)]
pub struct Duties {
    /// Its unit.
    pub unit: u8,
    /// Its side of the unit.
    pub side: Side,
    /// The rounds of the bus.
    pub round: Round,
    /// The unit's jobs by the tick at which they start.
    pub starts: Schedule,
    /// The messages for the unit's jobs by the tick from which on it takes them.
    pub arrivals: Schedule,
    /// The messages that the unit sends by the round in whose frame they go.
    pub sendings: Schedule,
    /// All messages by the job for which they are.
    pub feeds: Schedule,
    /// The actuators by the task whose outputs they get.
    pub outputs: Schedule,
    /// For each sensor how many words of a line stand before its own.
    pub sensors: Vec<u32>,
}

impl Duties {
    /// What the replica of a unit's side looks up.
    pub fn new(
        alloc: Global,
        net: &Net,
        graph: &Graph,
        tables: &Tables,
        unit: u8,
        side: Side,
    ) -> Result<Duties, Memory>
        requires net { IsNetGraph net.now graph.now }
        requires valid { AreValid net.now graph.now tables.now }
        requires unit { unit < net.now.shape.units }
        ensures { IfOk result (AreDutiesOf net.now graph.now tables.now unit side) }
    {
        let round = round_of(net, graph);
        let starts = starts(alloc, graph, tables, unit)?;
        let arrivals = arrivals(alloc, net, graph, tables, &round, unit)?;
        let sendings = sendings(alloc, tables, &round, unit)?;
        let feeds = feeds(alloc, net, graph, tables)?;
        let outputs = outputs(alloc, net)?;
        let sensors = sensor_starts(alloc, net, graph)?;
        Ok(Duties {
            unit,
            side,
            round,
            starts,
            arrivals,
            sendings,
            feeds,
            outputs,
            sensors,
        })
    }
}

// The bus of the graph's cycle.
fn round_of(net: &Net, graph: &Graph) -> Round
    requires { IsNetGraph net.now graph.now }
    ensures { result ≡ bus_of net.now graph.now }
{
    Round::new(&net.shape, graph.cycle())
}

/// The actuators by the task whose outputs they get.
pub fn outputs(alloc: Global, net: &Net) -> Result<Schedule, Memory>
    requires { length net.now.actuators ≤ 1024 }
    ensures { IfOk result (λ s. s ≡ outputs_in net.now) }
{
    let mut due = Vec::new(alloc);
    for plug in net.actuators.as_slice() {
        due.push(usize::from(plug.task))?;
    }
    Schedule::new(alloc, due, net.tasks.len())
}
