//! The begin of a cycle.
ghost use Rattle.std.specs.Prelude.{◌≡◌, ◌<◌, ℕ, length, map, slice_get, Some};
ghost use Rattle.std.specs.List.{All};
ghost use Rattle.cluster_seats.specs.Fresh.{all_fresh};
ghost use Rattle.cluster_seats.specs.Seats.{plan_for};

use crate::seat::Seat;
use plant::Plant;

/// The next cycle begins for all replicas.
pub fn turn_all<S: Seat>(plant: &Plant<S::Program>, seats: &mut Vec<S>)
    requires alive { All (S.is_alive plant.now) seats.old.items }
    ensures alive { All (S.is_alive plant.now) seats.new.items }
    ensures seats { map S.seat seats.new.items ≡ all_fresh (plan_for S.exec S.cost plant.now) (map S.seat seats.old.items) }
{
    'turn: for i in 0..seats.len() {
        seats[i].next_cycle(plant);
    }
}
