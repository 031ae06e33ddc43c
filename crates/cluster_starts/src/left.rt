//! What a cycle leaves.
ghost use Rattle.std.specs.Prelude.{◌≡◌, ◌<◌, ◌*◌, ℕ, List, [], ℤ, length, map, get_or, slice_set, Option};
ghost use Rattle.bus.specs.Numbers.{BusState};
ghost use Rattle.graph.specs.NetGraph.{IsNetGraph};
ghost use Rattle.tables.specs.Valid.{AreValid};
ghost use Rattle.cluster_model.specs.Cluster.{left_states};
ghost use Rattle.cluster_model.specs.State.{state_in};
ghost use Rattle.cluster_seats.specs.Seats.{AreSeated, members_on, plan_for};
ghost use Rattle.cluster_starts.specs.Left.{left_of, home_of, HaveRoom, state_with};

use cluster_seats::Seat;
use graph::Graph;
use plant::Plant;
use tables::Tables;
use task_words::TaskStates;
use timetable::entry_at;

/// The states with which the next cycle starts, in the place of those with which this one did: of each task the state
/// that A of its unit has left where that runs, else the one that B has where that runs; else it stays.
pub fn take_left<S: Seat>(plant: &Plant<S::Program>, seats: &[S], starts: &mut TaskStates)
    requires net { IsNetGraph plant.now.net plant.now.graph }
    requires valid { AreValid plant.now.net plant.now.graph plant.now.tables }
    requires seats { AreSeated plant.now.net.shape.units (map S.seat seats.now) }
    requires room { HaveRoom plant.now (map S.seat seats.now) starts.old }
    ensures left { (bus : BusState) (cycle : ℕ) (line : Option (List ℤ))
        → starts.new ≡ left_states (plan_for S.exec S.cost plant.now) (state_with cycle line starts.old (members_on bus (map S.seat seats.now))) }
    ensures room { (task : ℕ) → length (get_or starts.new task []) ≡ length (get_or starts.old task []) }
{
    'tasks: for task in 0..plant.net.tasks.len() as u8 {
        let number = 2 * usize::from(home_of(&plant.graph, &plant.tables, task));
        take_one(&seats[number], &seats[number + 1], task, starts);
    }
}

// The state that a task has left at its unit's two replicas, in the place of that with which the cycle started.
fn take_one<S: Seat>(a: &S, b: &S, task: u8, starts: &mut TaskStates)
    requires task { task < length starts.old }
    requires a_states { task < length (S.seat a.now).held.states }
    requires b_states { task < length (S.seat b.now).held.states }
    requires a_room { length (state_in (S.seat a.now).held task) ≡ length (get_or starts.old task []) }
    requires b_room { length (state_in (S.seat b.now).held task) ≡ length (get_or starts.old task []) }
    ensures { starts.new ≡ slice_set starts.old task (left_of (S.seat a.now) (S.seat b.now) task (get_or starts.old task [])) }
{
    if a.is_running() {
        starts.set(usize::from(task), a.state(u16::from(task)));
    } else if b.is_running() {
        starts.set(usize::from(task), b.state(u16::from(task)));
    }
}

// The unit of a task.
fn home_of(graph: &Graph, tables: &Tables, task: u8) -> u8
    requires { task < length graph.now.first_jobs }
    ensures { result ≡ home_of graph.now tables.now task }
{
    entry_at(tables, usize::from(graph.first_job(task))).unit
}
