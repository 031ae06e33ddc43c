//! One decision more, and one less.
ghost use Rattle.std.specs.Prelude.{◌≡◌, ◌<◌, List, [], ◌∷◌, ◌++◌, length, slice_set, slice_index_or, vec_capacity, replicate, ◌≤◌, Some, None, IfOk};
ghost use Rattle.decisions.specs.Decision.{Decision, work_at};
ghost use Rattle.decisions.specs.ProblemOf.{problem_of as problem_in};
ghost use Rattle.graph.specs.NetGraph.{IsNetGraph};
ghost use Rattle.placement.specs.Feeding.{IsNext, first_some, without, one_if as one_where};
ghost use Rattle.placement.specs.Held.{Holds, ticks_of as ticks_in};

use crate::front::{lesser, placed_to, rank_at, ranks_of};
use crate::latest::{by_start, is_hopeless, is_past, work};
use crate::rooms::{give_all, take_all};
use crate::state::State;
use decisions::{Placed, Problem, Ticks};
use graph::{Graph, Net};
use mars_base::Memory;
use net_problem::problem_of;
use std::alloc::Global;
use tdma::Frames;
use unit_ticks::UnitTicks;

// How many tasks a net has at most.
const TASKS: usize = 64;

/// A table without places.
fn nothing(alloc: Global, numbers: usize) -> Result<Vec<Option<u16>>, Memory>
    ensures { IfOk result (λ v. v.items ≡ replicate numbers None) }
{
    Ok(vec![in alloc; None; numbers]?)
}

/// No decision yet, with all memory that decisions will take.
pub(crate) fn empty(alloc: Global, net: &Net, graph: &Graph) -> Result<State, Memory>
    requires { IsNetGraph net.now graph.now }
    ensures holds { IfOk result Holds }
    ensures problem { IfOk result (λ s. s.problem ≡ problem_in net.now graph.now) }
    ensures list { IfOk result (λ s. s.placed.items ≡ []) }
{
    let problem = problem_of(alloc, net, graph)?;
    let jobs = problem.works.len();
    let order = by_start(alloc, &problem)?;
    let ranks = ranks_of(alloc, order.as_slice(), jobs)?;
    let hopeless = is_hopeless(&problem);
    let frames = Frames::new(alloc, &problem.round)?;
    let ticks = UnitTicks::new(alloc, problem.round.units(), jobs)?;
    let placed = Vec::with_capacity(alloc, jobs)?;
    let places = nothing(alloc, jobs)?;
    let homes = nothing(alloc, TASKS)?;
    Ok(State {
        problem,
        placed,
        places,
        homes,
        frames,
        ticks,
        order,
        ranks,
        first: 0,
        late: 0,
        hopeless,
    })
}

/// The task of a placed job.
fn task_of(problem: &Problem, placed: &Placed) -> usize
    requires { placed.now.job < length problem.now.works }
    ensures { result ≡ (work_at problem.now placed.now.job).task }
{
    usize::from(work(problem, usize::from(placed.job())).task)
}

/// The ticks of a placed job.
fn ticks_of(placed: &Placed) -> Ticks
    ensures { result ≡ ticks_in placed.now }
{
    Ticks {
        start: placed.start(),
        end: placed.end(),
    }
}

/// One where it is so, and else none.
fn one_if(so: bool) -> usize
    ensures { result ≡ one_where so }
{
    if so { 1 } else { 0 }
}

/// Appends a decision where there is room.
fn append(decisions: &mut Vec<Placed>, placed: Placed)
    requires { length decisions.old.items < vec_capacity decisions.old }
    ensures items { decisions.new.items ≡ decisions.old.items ++ placed ∷ [] }
    ensures room { vec_capacity decisions.old ≤ vec_capacity decisions.new }
{
    let _ = decisions.push(placed);
}

/// Writes the place of a job.
fn set_place(places: &mut Vec<Option<u16>>, job: usize, place: Option<u16>)
    requires { job < length places.old.items }
    ensures { places.new.items ≡ slice_set places.old.items job place }
{
    places[job] = place;
}

/// Makes one decision more. It takes no memory.
pub(crate) fn push(state: &mut State, placed: Placed)
    requires holds { Holds state.old }
    requires next { IsNext state.old.problem state.old.placed.items placed }
    ensures holds { Holds state.new }
    ensures problem { state.new.problem ≡ state.old.problem }
    ensures list { state.new.placed.items ≡ state.old.placed.items ++ placed ∷ [] }
{
    let place = state.placed.len() as u16;
    let job = usize::from(placed.job());
    let task = task_of(&state.problem, &placed);
    let late = state.late + one_if(is_past(&state.problem, &placed));
    take_all(&mut state.frames, placed.sent());
    state.ticks.take(placed.unit(), ticks_of(&placed));
    set_place(&mut state.places, job, Some(place));
    note(&mut state.homes, task, place);
    state.first = placed_to(state.order.as_slice(), state.places.as_slice(), state.first);
    state.late = late;
    append(&mut state.placed, placed);
}

/// Notes a place where none is noted yet.
fn note(homes: &mut Vec<Option<u16>>, task: usize, place: u16)
    requires { task < length homes.old.items }
    ensures { homes.new.items ≡ slice_set homes.old.items task (first_some (slice_index_or homes.old.items task None) (Some place)) }
{
    if homes[task].is_none() {
        homes[task] = Some(place);
    }
}

/// Forgets a place where it is the one that is noted.
fn forget(homes: &mut Vec<Option<u16>>, task: usize, place: u16)
    requires { task < length homes.old.items }
    ensures { homes.new.items ≡ slice_set homes.old.items task (without (slice_index_or homes.old.items task None) place) }
{
    if homes[task] == Some(place) {
        homes[task] = None;
    }
}

/// Takes the last decision back.
pub(crate) fn undo(state: &mut State)
    requires { Holds state.old }
    ensures holds { Holds state.new }
    ensures problem { state.new.problem ≡ state.old.problem }
    ensures list { (l : List Decision) (d : Decision) → state.old.placed.items ≡ l ++ d ∷ [] → state.new.placed.items ≡ l }
{
    let Some(placed) = state.placed.pop() else {
        return;
    };
    let place = state.placed.len() as u16;
    let job = usize::from(placed.job());
    let task = task_of(&state.problem, &placed);
    let late = state.late - one_if(is_past(&state.problem, &placed));
    set_place(&mut state.places, job, None);
    forget(&mut state.homes, task, place);
    state.first = lesser(state.first, rank_at(state.ranks.as_slice(), job));
    give_all(&mut state.frames, placed.sent());
    state.ticks.give_back(placed.unit(), placed.start());
    state.late = late;
}
