//! A cluster before its first event.
ghost use Rattle.std.specs.Prelude.{◌≡◌, ◌+◌, ℕ, None, IfOk, length, map};
ghost use Rattle.std.specs.List.{All};
ghost use Rattle.graph.specs.Cycle.{sensor_words};
ghost use Rattle.graph.specs.NetGraph.{IsNetGraph};
ghost use Rattle.bus.specs.Numbers.{slot_count};
ghost use Rattle.bus.specs.SlotState.{Open, slot_at};
ghost use Rattle.tables.specs.Valid.{bus_of};
ghost use Rattle.cluster_model.specs.Cluster.{first_state};
ghost use Rattle.cluster_reached.specs.Laws.{IsReachedBy};
ghost use Rattle.cluster_seats.specs.Seats.{plan_for};
ghost use Rattle.cluster.specs.Clocks.{clock_seen};
ghost use Rattle.cluster.specs.First.{AreFirsts, first_seats};
ghost use Rattle.cluster.specs.Stands.{StandsFor, state_of};

use crate::clocks::clock_of;
use crate::state::Cluster;
use crate::width::line_words;
use bus::Bus;
use cluster_clocks::Clock;
use cluster_seats::Seat;
use cycle_line::CycleLine;
use effect_buf::EffectBuf;
use first_silence::{Moment, first_silence};
use graph::{Graph, Net};
use mars_base::{Memory, Side};
use plant::Plant;
use script::{Script, Silence};
use std::alloc::Global;
use task_words::TaskStates;
use tdma::Round;

/// A cluster of replicas in their seats before its first event, for a script. It takes all memory of the run; where there
/// is none, the replicas and the script are dropped.
pub fn new_cluster<S: Seat>(
    alloc: Global,
    plant: &Plant<S::Program>,
    seats: Vec<S>,
    script: Script,
) -> Result<Cluster<S>, Memory>
    requires fit { S.is_fit plant.now }
    requires alive { All (S.is_alive plant.now) seats.items }
    requires seats { map S.seat seats.items ≡ first_seats (plan_for S.exec S.cost plant.now) plant.now.net.shape.units }
    ensures stands { IfOk result (StandsFor S.seat S.is_alive plant.now) }
    ensures state { IfOk result (λ c. state_of S.seat c ≡ first_state (plan_for S.exec S.cost plant.now)) }
    ensures reached { IfOk result (λ c. IsReachedBy plant.now.net plant.now.graph plant.now.tables plant.now.states (S.exec plant.now) (S.cost plant.now) c.script.silences.items (state_of S.seat c)) }
    ensures script { IfOk result (λ c. c.script ≡ script) }
{
    let clocks = first_clocks(alloc, seats.as_slice())?;
    let bus = first_bus(alloc, &plant.net, &plant.graph)?;
    let line = first_line(alloc, &plant.net, &plant.graph)?;
    let starts = TaskStates::new(alloc, plant.states.as_slice())?;
    let firsts = first_moments(alloc, script.silences.as_slice(), plant.net.shape.units)?;
    let seen = EffectBuf::new(alloc)?;
    Ok(Cluster {
        seats,
        clocks,
        bus,
        cycle: 0,
        line,
        starts,
        script,
        firsts,
        seen,
    })
}

// The clock of each replica.
fn first_clocks<S: Seat>(alloc: Global, seats: &[S]) -> Result<Vec<Clock>, Memory>
    ensures { IfOk result (λ clocks. clocks.items ≡ map clock_seen (map S.seat seats.now)) }
{
    let mut clocks = Vec::new(alloc);
    for seat in seats {
        clocks.push(clock_of(seat))?;
    }
    Ok(clocks)
}

// The bus of a cycle, with every slot open.
fn first_bus(alloc: Global, net: &Net, graph: &Graph) -> Result<Bus, Memory>
    requires { IsNetGraph net.now graph.now }
    ensures layout { IfOk result (λ b. b.layout ≡ bus_of net.now graph.now) }
    ensures count { IfOk result (λ b. length b.slots ≡ slot_count b.layout) }
    ensures open { IfOk result (λ b. (n : ℕ) → slot_at b.slots n ≡ Open) }
{
    Bus::new(alloc, &Round::new(&net.shape, graph.cycle()))
}

// Room for the line of a cycle, which has had no event.
fn first_line(alloc: Global, net: &Net, graph: &Graph) -> Result<CycleLine, Memory>
    requires { IsNetGraph net.now graph.now }
    ensures width { IfOk result (λ l. l.width ≡ sensor_words net.now graph.now.cycle) }
    ensures none { IfOk result (λ l. l.line ≡ None) }
{
    CycleLine::new(alloc, line_words(net, graph))
}

// The moment from which on each replica is silent, of each unit A and then B.
fn first_moments(
    alloc: Global,
    silences: &[Silence],
    units: u8,
) -> Result<Vec<Option<Moment>>, Memory>
    ensures { IfOk result (λ firsts. AreFirsts silences.now units firsts.items) }
{
    let mut firsts = Vec::new(alloc);
    for unit in 0..units {
        add_moments(silences, unit, &mut firsts)?;
    }
    Ok(firsts)
}

// Those of one unit more.
fn add_moments(
    silences: &[Silence],
    unit: u8,
    firsts: &mut Vec<Option<Moment>>,
) -> Result<(), Memory>
    requires { AreFirsts silences.now unit firsts.old.items }
    ensures { IfOk result (λ _. AreFirsts silences.now (unit + 1) firsts.new.items) }
{
    firsts.push(first_silence(silences, unit, Side::A))?;
    firsts.push(first_silence(silences, unit, Side::B))?;
    Ok(())
}
