//! The event of one replica.
ghost use Rattle.std.specs.Prelude.{◌≡◌, ◌<◌, [], length, map, set};
ghost use Rattle.std.specs.List.{All};
ghost use Rattle.graph.specs.Cycle.{sensor_words};
ghost use Rattle.tables.specs.Valid.{bus_of};
ghost use Rattle.tick_parts.specs.OnBus.{IsBusOf};
ghost use Rattle.cluster_model.specs.Cluster.{after_tick, fallen};
ghost use Rattle.cluster_model.specs.Effects.{tick_effects, fall_effects};
ghost use Rattle.cluster_model.specs.State.{bus_in};
ghost use Rattle.cluster_seats.specs.Seats.{AreSeated, seat_at, member_on, members_on, plan_for};
ghost use Rattle.cluster_act.specs.Acts.{CanAct};

use bus::Bus;
use cluster_seats::Seat;
use effect_buf::EffectBuf;
use plant::Plant;

/// The replica in a seat performs the tick of its clock, and shows it; all others stay as they are.
pub fn tick_one<S: Seat>(
    plant: &Plant<S::Program>,
    seats: &mut Vec<S>,
    number: usize,
    bus: &mut Bus,
    line: &[i32],
    seen: &mut EffectBuf,
)
    requires fit { S.is_fit plant.now }
    requires alive { All (S.is_alive plant.now) seats.old.items }
    requires seated { AreSeated plant.now.net.shape.units (map S.seat seats.old.items) }
    requires number { number < length seats.old.items }
    requires can { CanAct (bus_of plant.now.net plant.now.graph) plant.now.graph.cycle bus.old (seat_at (map S.seat seats.old.items) number) }
    requires line { length line.now ≡ sensor_words plant.now.net plant.now.graph.cycle }
    requires room { seen.old ≡ [] }
    ensures alive { All (S.is_alive plant.now) seats.new.items }
    ensures seated { AreSeated plant.now.net.shape.units (map S.seat seats.new.items) }
    ensures bus { IsBusOf (bus_of plant.now.net plant.now.graph) bus.new }
    ensures members { members_on bus.new (map S.seat seats.new.items) ≡ set (members_on bus.old (map S.seat seats.old.items)) number
        (after_tick (plan_for S.exec S.cost plant.now) line.now (members_on bus.old (map S.seat seats.old.items))
        (seat_at (map S.seat seats.old.items) number).unit (seat_at (map S.seat seats.old.items) number).side (member_on bus.old (seat_at (map S.seat seats.old.items) number))) }
    ensures effects { seen.new ≡ tick_effects (plan_for S.exec S.cost plant.now) (bus_in (members_on bus.old (map S.seat seats.old.items))) line.now
        (seat_at (map S.seat seats.old.items) number).unit (seat_at (map S.seat seats.old.items) number).side (seat_at (map S.seat seats.old.items) number).held }
{
    seats[number].tick(plant, bus, line, seen);
}

/// The replica in a seat falls silent at its clock, and shows it; all others stay as they are.
pub fn fall_one<S: Seat>(
    plant: &Plant<S::Program>,
    seats: &mut Vec<S>,
    number: usize,
    bus: &mut Bus,
    seen: &mut EffectBuf,
)
    requires fit { S.is_fit plant.now }
    requires alive { All (S.is_alive plant.now) seats.old.items }
    requires seated { AreSeated plant.now.net.shape.units (map S.seat seats.old.items) }
    requires number { number < length seats.old.items }
    requires can { CanAct (bus_of plant.now.net plant.now.graph) plant.now.graph.cycle bus.old (seat_at (map S.seat seats.old.items) number) }
    requires room { seen.old ≡ [] }
    ensures alive { All (S.is_alive plant.now) seats.new.items }
    ensures seated { AreSeated plant.now.net.shape.units (map S.seat seats.new.items) }
    ensures bus { IsBusOf (bus_of plant.now.net plant.now.graph) bus.new }
    ensures members { members_on bus.new (map S.seat seats.new.items) ≡ set (members_on bus.old (map S.seat seats.old.items)) number
        (fallen (member_on bus.old (seat_at (map S.seat seats.old.items) number))) }
    ensures effects { seen.new ≡ fall_effects (member_on bus.old (seat_at (map S.seat seats.old.items) number)).slots }
{
    seats[number].silence(plant, bus, seen);
}
