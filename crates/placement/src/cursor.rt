//! How far the choices after a list have been looked at.
ghost use Rattle.std.specs.Prelude.{◌≡◌, ◌+◌, ◌<◌, ◌≤◌, ℕ, List, [], length, MatchOption};
ghost use Rattle.decisions.specs.Decision.{Decision};
ghost use Rattle.decisions.specs.Choices.{choices};
ghost use Rattle.placement.specs.Held.{Holds};
ghost use Rattle.placement.specs.Choosing.{put_fit, put_fits, IsLeft, GoesOn, Looks};

use crate::fits::{is_ready, row};
use crate::pending::Fit;
use crate::state::State;
use arrayvec::ArrayVec;
use decisions::Choice;

/// The place of the next choice among those after a list of decisions.
#[derive(Drop)]
pub struct Cursor {
    /// How many jobs were looked at, in the order of their latest starts.
    pub jobs: usize,
    /// The job that was looked at last.
    pub job: u16,
    /// The units that can run it, by its end there and then by unit.
    pub row: ArrayVec<Fit, 8>,
    /// How many of them were told.
    pub told: usize,
}

/// Puts a unit behind those where the job ends no later.
fn put(row: &mut ArrayVec<Fit, 8>, fit: Fit)
    requires { length row.old.items < 8 }
    ensures items { row.new.items ≡ put_fit fit row.old.items }
    ensures few { length row.new.items ≤ length row.old.items + 1 }
{
    let mut place = 0;
    for other in row.as_slice() {
        if other.end > fit.end {
            break;
        }
        place += 1;
    }
    row.insert(place, fit);
}

/// The same where there is one.
pub(crate) fn put_some(row: &mut ArrayVec<Fit, 8>, fit: Option<Fit>)
    requires { length row.old.items < 8 }
    ensures items { row.new.items ≡ put_fits fit row.old.items }
    ensures few { length row.new.items ≤ length row.old.items + 1 }
{
    if let Some(fit) = fit {
        put(row, fit);
    }
}

/// Before the first choice.
pub(crate) fn first(state: &State) -> Cursor
    requires { Holds state.now }
    ensures { IsLeft state.now.problem state.now.placed.items result (choices state.now.problem state.now.placed.items) }
{
    Cursor {
        jobs: state.first,
        job: 0,
        row: ArrayVec::new(),
        told: 0,
    }
}

/// Goes on to the next ready job; None where there is none.
fn look(state: &State, jobs: usize) -> Option<Cursor>
    requires { Holds state.now }
    ensures { Looks state.now.problem state.now.placed.items jobs result }
{
    let mut place = jobs;
    while place < state.order.len() {
        let job = state.order[place];
        if is_ready(state, job) {
            return Some(Cursor {
                jobs: place + 1,
                job,
                row: row(state, job),
                told: 0,
            });
        }
        place += 1;
    }
    None
}

/// The next choice; None where there is none more. Choices are made one job at a time.
pub(crate) fn next(state: &State, cursor: &mut Cursor) -> Option<Choice>
    requires { Holds state.now }
    ensures { (left : List Decision) → IsLeft state.now.problem state.now.placed.items cursor.old left → MatchOption result (left ≡ []) (λ choice. GoesOn state.now.problem state.now.placed.items left choice cursor.new) }
{
    while cursor.told >= cursor.row.len() {
        match look(state, cursor.jobs) {
            Some(next) => *cursor = next,
            None => return None,
        }
    }
    let fit = cursor.row.as_slice()[cursor.told];
    cursor.told += 1;
    Some(Choice {
        job: cursor.job,
        unit: fit.unit,
    })
}
