//! The clocks of a cluster's replicas.
ghost use Rattle.std.specs.Prelude.{◌≡◌, length, map};
ghost use Rattle.cluster_model.specs.State.{replica_number};
ghost use Rattle.cluster.specs.Clocks.{clock_seen};

use cluster_clocks::Clock;
use cluster_seats::Seat;
use mars_base::Side;

/// The number of a replica's seat.
pub fn seat_number(unit: u8, side: Side) -> usize
    ensures { result ≡ replica_number unit side }
{
    match side {
        Side::A => 2 * usize::from(unit),
        Side::B => 2 * usize::from(unit) + 1,
    }
}

/// The clock of a replica.
pub fn clock_of<S: Seat>(seat: &S) -> Clock
    ensures { result ≡ clock_seen (S.seat seat.now) }
{
    Clock {
        tick: seat.clock(),
        is_running: seat.is_running(),
    }
}

/// Notes the clock of each replica.
pub fn read_clocks<S: Seat>(seats: &[S], clocks: &mut Vec<Clock>)
    requires { length clocks.old.items ≡ length seats.now }
    ensures { clocks.new.items ≡ map clock_seen (map S.seat seats.now) }
{
    'clocks: for i in 0..seats.len() {
        clocks[i] = clock_of(&seats[i]);
    }
}
