//! One event.
ghost use Rattle.std.specs.Prelude.{◌≡◌, ◌<◌, ◌+◌, ◌^◌, List, [], ℤ, length};
ghost use Rattle.graph.specs.Cycle.{sensor_words};
ghost use Rattle.tables.specs.Valid.{bus_of};
ghost use Rattle.net_run.specs.Alike.{IsLine};
ghost use Rattle.cluster_act.specs.Acts.{CanAct};
ghost use Rattle.cluster_model.specs.Cluster.{IsEnabled, IsLineOf, after_tick, fallen, happens, settled, step};
ghost use Rattle.cluster_reached.specs.InPlace.{AreInPlace};
ghost use Rattle.cluster_reached.specs.Laws.{IsReachedBy};
ghost use Rattle.cluster_seats.specs.Seats.{plan_for, seat_at, member_on};
ghost use Rattle.cluster.specs.Stands.{StandsFor, seats_of, state_of, with_member};

use crate::clocks::{clock_of, seat_number};
use crate::state::Cluster;
use crate::turn::turn;
use cluster_act::{fall_one, tick_one};
use cluster_clocks::is_over;
use cluster_seats::Seat;
use first_silence::is_reached;
use mars_base::Side;
use plant::Plant;

/// Where the cycle is over, the next one begins.
pub fn settle<S: Seat>(plant: &Plant<S::Program>, cluster: &mut Cluster<S>)
    requires fit { S.is_fit plant.now }
    requires stands { StandsFor S.seat S.is_alive plant.now cluster.old }
    requires in_place { AreInPlace (plan_for S.exec S.cost plant.now) (state_of S.seat cluster.old) }
    requires cycle { cluster.old.cycle + 1 < 2 ^ 32 }
    ensures stands { StandsFor S.seat S.is_alive plant.now cluster.new }
    ensures state { state_of S.seat cluster.new ≡ settled (plan_for S.exec S.cost plant.now) (state_of S.seat cluster.old) }
    ensures script { cluster.new.script ≡ cluster.old.script }
{
    if is_over(&cluster.clocks, plant.graph.cycle()) {
        turn(plant, cluster);
    }
}

/// One event of a replica within its cycle, with the cycle's line: it performs the tick of its clock, or it falls silent
/// there where the script says so.
pub fn act<S: Seat>(
    plant: &Plant<S::Program>,
    cluster: &mut Cluster<S>,
    unit: u8,
    side: Side,
    line: &[i32],
)
    requires fit { S.is_fit plant.now }
    requires stands { StandsFor S.seat S.is_alive plant.now cluster.old }
    requires in_place { AreInPlace (plan_for S.exec S.cost plant.now) (state_of S.seat cluster.old) }
    requires enabled { IsEnabled (plan_for S.exec S.cost plant.now) (state_of S.seat cluster.old).members unit side }
    requires line { length line.now ≡ sensor_words plant.now.net plant.now.graph.cycle }
    requires same { IsLineOf (state_of S.seat cluster.old) line.now }
    ensures stands { StandsFor S.seat S.is_alive plant.now cluster.new }
    ensures state { state_of S.seat cluster.new ≡ happens (plan_for S.exec S.cost plant.now) cluster.old.script.silences.items line.now unit side (state_of S.seat cluster.old) }
    ensures script { cluster.new.script ≡ cluster.old.script }
{
    let number = seat_number(unit, side);
    cluster.line.keep(line);
    cluster.seen.clear();
    let tick = cluster.clocks[number].tick;
    if is_reached(cluster.firsts[number], cluster.cycle, tick) {
        fall(plant, cluster, number);
    } else {
        perform(plant, cluster, number, line);
    }
}

// The replica in a seat performs its tick.
fn perform<S: Seat>(
    plant: &Plant<S::Program>,
    cluster: &mut Cluster<S>,
    number: usize,
    line: &[i32],
)
    requires fit { S.is_fit plant.now }
    requires stands { StandsFor S.seat S.is_alive plant.now cluster.old }
    requires number { number < length cluster.old.seats.items }
    requires can { CanAct (bus_of plant.now.net plant.now.graph) plant.now.graph.cycle cluster.old.bus (seat_at (seats_of S.seat cluster.old) number) }
    requires line { length line.now ≡ sensor_words plant.now.net plant.now.graph.cycle }
    requires room { cluster.old.seen ≡ [] }
    ensures stands { StandsFor S.seat S.is_alive plant.now cluster.new }
    ensures state { state_of S.seat cluster.new ≡ with_member number
        (after_tick (plan_for S.exec S.cost plant.now) line.now (state_of S.seat cluster.old).members (seat_at (seats_of S.seat cluster.old) number).unit (seat_at (seats_of S.seat cluster.old) number).side
        (member_on cluster.old.bus (seat_at (seats_of S.seat cluster.old) number))) (state_of S.seat cluster.old) }
    ensures script { cluster.new.script ≡ cluster.old.script }
{
    tick_one(
        plant,
        &mut cluster.seats,
        number,
        &mut cluster.bus,
        line,
        &mut cluster.seen,
    );
    cluster.clocks[number] = clock_of(&cluster.seats[number]);
}

// The replica in a seat falls silent.
fn fall<S: Seat>(plant: &Plant<S::Program>, cluster: &mut Cluster<S>, number: usize)
    requires fit { S.is_fit plant.now }
    requires stands { StandsFor S.seat S.is_alive plant.now cluster.old }
    requires number { number < length cluster.old.seats.items }
    requires can { CanAct (bus_of plant.now.net plant.now.graph) plant.now.graph.cycle cluster.old.bus (seat_at (seats_of S.seat cluster.old) number) }
    requires room { cluster.old.seen ≡ [] }
    ensures stands { StandsFor S.seat S.is_alive plant.now cluster.new }
    ensures state { state_of S.seat cluster.new ≡ with_member number (fallen (member_on cluster.old.bus (seat_at (seats_of S.seat cluster.old) number))) (state_of S.seat cluster.old) }
    ensures script { cluster.new.script ≡ cluster.old.script }
{
    fall_one(
        plant,
        &mut cluster.seats,
        number,
        &mut cluster.bus,
        &mut cluster.seen,
    );
    cluster.clocks[number] = clock_of(&cluster.seats[number]);
}

/// One event of a replica that may have one, with the line of its cycle. Where the cycle before is over it is the first
/// event of the next.
pub fn step<S: Seat>(
    plant: &Plant<S::Program>,
    cluster: &mut Cluster<S>,
    unit: u8,
    side: Side,
    line: &[i32],
)
    requires fit { S.is_fit plant.now }
    requires stands { StandsFor S.seat S.is_alive plant.now cluster.old }
    requires reached { IsReachedBy plant.now.net plant.now.graph plant.now.tables plant.now.states (S.exec plant.now) (S.cost plant.now) cluster.old.script.silences.items (state_of S.seat cluster.old) }
    requires enabled { IsEnabled (plan_for S.exec S.cost plant.now) (settled (plan_for S.exec S.cost plant.now) (state_of S.seat cluster.old)).members unit side }
    requires line { IsLine plant.now.net plant.now.graph.cycle line.now }
    requires same { IsLineOf (settled (plan_for S.exec S.cost plant.now) (state_of S.seat cluster.old)) line.now }
    requires cycle { cluster.old.cycle + 1 < 2 ^ 32 }
    ensures stands { StandsFor S.seat S.is_alive plant.now cluster.new }
    ensures reached { IsReachedBy plant.now.net plant.now.graph plant.now.tables plant.now.states (S.exec plant.now) (S.cost plant.now) cluster.new.script.silences.items (state_of S.seat cluster.new) }
    ensures state { state_of S.seat cluster.new ≡ step (plan_for S.exec S.cost plant.now) cluster.old.script.silences.items line.now unit side (state_of S.seat cluster.old) }
    ensures script { cluster.new.script ≡ cluster.old.script }
{
    settle(plant, cluster);
    act(plant, cluster, unit, side, line);
}
