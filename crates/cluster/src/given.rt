//! What the jobs of a cycle have given.
ghost use Rattle.std.specs.Prelude.{◌≡◌, ◌<◌, length, option_copied};
ghost use Rattle.cluster_model.specs.Cluster.{outs_in};
ghost use Rattle.cluster_model.specs.State.{given, status_in, member_of};
ghost use Rattle.cluster_reached.specs.InPlace.{AreInPlace};
ghost use Rattle.cluster_seats.specs.Seats.{plan_for};
ghost use Rattle.cluster.specs.Stands.{StandsFor, state_of};

use crate::clocks::seat_number;
use crate::state::Cluster;
use cluster_seats::Seat;
use mars_base::Side;
use plant::Plant;
use timetable::entry_at;

/// The out words that a job has given in this cycle, in port order: by A's replica of its unit, else by B's. None
/// exactly where neither has ended it, or it was broken.
pub fn outs<'a, S: Seat>(
    plant: &Plant<S::Program>,
    cluster: &'a Cluster<S>,
    job: u16,
) -> Option<&'a [i32]>
    requires fit { S.is_fit plant.now }
    requires stands { StandsFor S.seat S.is_alive plant.now cluster.now }
    requires in_place { AreInPlace (plan_for S.exec S.cost plant.now) (state_of S.seat cluster.now) }
    requires job { job < length plant.now.graph.jobs }
    ensures { option_copied result ≡ outs_in (plan_for S.exec S.cost plant.now) (state_of S.seat cluster.now) job }
{
    let unit = entry_at(&plant.tables, usize::from(job)).unit;
    match given_by(plant, cluster, unit, Side::A, job) {
        Some(outs) => Some(outs),
        None => given_by(plant, cluster, unit, Side::B, job),
    }
}

// What one replica of the job's unit has given.
fn given_by<'a, S: Seat>(
    plant: &Plant<S::Program>,
    cluster: &'a Cluster<S>,
    unit: u8,
    side: Side,
    job: u16,
) -> Option<&'a [i32]>
    requires stands { StandsFor S.seat S.is_alive plant.now cluster.now }
    requires in_place { AreInPlace (plan_for S.exec S.cost plant.now) (state_of S.seat cluster.now) }
    requires unit { unit < plant.now.net.shape.units }
    requires job { job < length plant.now.graph.jobs }
    ensures { option_copied result ≡ given (status_in (member_of (state_of S.seat cluster.now).members unit side).held job) }
{
    cluster.seats[seat_number(unit, side)].outs(job)
}
