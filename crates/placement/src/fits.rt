//! Where jobs fit behind the decisions.
ghost use Rattle.std.specs.Prelude.{◌≡◌, ℕ, ◌+◌, ◌<◌, ◌≤◌, max, [], length, map, option_map, if◌then◌else◌, IfSome, Some, None};
ghost use Rattle.decisions.specs.declared.problem.Feed.{Feed};
ghost use Rattle.decisions.specs.Decision.{Decision, work_at, decision_on, first_of_task};
ghost use Rattle.decisions.specs.Place.{place, placed_after, fed};
ghost use Rattle.decisions.specs.Choices.{is_placed as has_decision, is_ready as stands_ready, is_allowed as may_run, row_of};
ghost use Rattle.placement.specs.declared.pending.Spot.{Spot};
ghost use Rattle.placement.specs.Feeding.{waiting_of, spot_of as spot_in, unit_at, sent_from, fed_from};
ghost use Rattle.placement.specs.Held.{Holds};
ghost use Rattle.placement.specs.Choosing.{fit_of, fit_in};

use crate::cursor::put_some;
use crate::latest::work;
use crate::pending::{Fit, Pending, Spot};
use crate::places::{has_place, has_unit, is_unit, spot};
use crate::rooms::{room_for, taken_with};
use crate::state::State;
use arrayvec::ArrayVec;
use decisions::{Choice, Feed, Placed, Sent};

/// Where a job is placed.
fn spot_of(state: &State, job: u16) -> Option<Spot>
    requires { Holds state.now }
    ensures { result ≡ spot_in (decision_on state.now.placed.items job) }
{
    spot(
        state.placed.as_slice(),
        state.places.as_slice(),
        usize::from(job),
    )
}

fn is_placed(state: &State, job: u16) -> bool
    requires { Holds state.now }
    ensures { result ≡ has_decision state.now.placed.items job }
{
    has_place(state.places.as_slice(), usize::from(job))
}

/// The unit of a task's jobs that are placed.
fn home_of(state: &State, task: u8) -> Option<u8>
    requires { Holds state.now }
    ensures { result ≡ unit_at (spot_in (first_of_task state.now.problem state.now.placed.items task)) }
{
    match spot(
        state.placed.as_slice(),
        state.homes.as_slice(),
        usize::from(task),
    ) {
        Some(spot) => Some(spot.unit),
        None => None,
    }
}

/// Whether a job isn't placed and all its producers are.
pub(crate) fn is_ready(state: &State, job: u16) -> bool
    requires holds { Holds state.now }
    requires job { job < length state.now.problem.works }
    ensures { result ≡ stands_ready state.now.problem state.now.placed.items job }
{
    if is_placed(state, job) {
        return false;
    }
    for feed in work(&state.problem, usize::from(job)).feeds.as_slice() {
        if !is_placed(state, feed.producer) {
            return false;
        }
    }
    true
}

/// Whether a unit may run a job.
fn is_allowed(state: &State, job: u16, unit: u8) -> bool
    requires holds { Holds state.now }
    requires job { job < length state.now.problem.works }
    requires unit { unit < 8 }
    ensures { result ≡ may_run state.now.problem state.now.placed.items job unit }
{
    let work = work(&state.problem, usize::from(job));
    if !has_unit(work.units, unit) {
        return false;
    }
    is_unit(home_of(state, work.task), unit)
}

/// The later of two ticks.
fn later(tick: u32, other: u32) -> u32
    ensures { result ≡ max tick other }
{
    if tick < other { other } else { tick }
}

/// Sends a message from a unit after a tick; false where no frame has room.
fn send(state: &State, feed: Feed, producer: Spot, pending: &mut Pending) -> bool
    requires holds { Holds state.now }
    requires few { length pending.old.sent.items < 16 }
    requires unit { producer.unit < state.now.problem.round.units }
    ensures few { length pending.new.sent.items ≤ length pending.old.sent.items + 1 }
    ensures sent { (if result then Some (waiting_of pending.new) else None) ≡ sent_from state.now.problem state.now.placed.items (waiting_of pending.old) feed producer.unit producer.end }
{
    let unit = producer.unit;
    let sent = pending.sent.as_slice();
    let room = room_for(
        &state.frames,
        &state.problem.round,
        sent,
        unit,
        producer.end,
        feed.words,
    );
    match room {
        Some(round) => {
            let offset = taken_with(&state.frames, sent, unit, round);
            let usable = state.problem.round.usable(round, unit);
            pending.sent.push(Sent {
                edge: feed.edge,
                unit,
                round,
                offset: offset as u8,
                words: feed.words,
            });
            pending.wait = later(pending.wait, usable);
            true
        }
        None => false,
    }
}

/// Lets a job on a unit wait for a producer where it is placed; false where a message finds no frame with room.
fn wait_for(
    state: &State,
    unit: u8,
    feed: Feed,
    producer: Option<Spot>,
    pending: &mut Pending,
) -> bool
    requires holds { Holds state.now }
    requires few { length pending.old.sent.items < 16 }
    requires unit { IfSome producer (λ (s : Spot). s.unit < state.now.problem.round.units) }
    ensures few { length pending.new.sent.items ≤ length pending.old.sent.items + 1 }
    ensures fed { (if result then Some (waiting_of pending.new) else None) ≡ fed_from state.now.problem state.now.placed.items unit (waiting_of pending.old) feed producer }
{
    match producer {
        Some(spot) => {
            if spot.unit != unit {
                return send(state, feed, spot, pending);
            }
            pending.wait = later(pending.wait, spot.end);
            true
        }
        None => false,
    }
}

/// The messages that a job on a unit gets, and the tick for which it waits; None where a message finds no frame.
fn pending_of(state: &State, job: u16, unit: u8) -> Option<Pending>
    requires holds { Holds state.now }
    requires job { job < length state.now.problem.works }
    ensures { option_map waiting_of result ≡ fed state.now.problem state.now.placed.items unit (work_at state.now.problem job).feeds (Some (record { sent = []; wait = (work_at state.now.problem job).release })) }
{
    let work = work(&state.problem, usize::from(job));
    let mut pending = Pending {
        sent: ArrayVec::new(),
        wait: work.release,
    };
    for feed in work.feeds.as_slice() {
        let producer = spot_of(state, feed.producer);
        if !wait_for(state, unit, *feed, producer, &mut pending) {
            return None;
        }
    }
    Some(pending)
}

/// The decision on a job that waits for so much on a unit; None where it can't run there in time.
fn start_of(state: &State, choice: Choice, pending: Pending) -> Option<Placed>
    requires holds { Holds state.now }
    requires job { choice.job < length state.now.problem.works }
    requires unit { choice.unit < state.now.problem.round.units }
    ensures { result ≡ placed_after state.now.problem state.now.placed.items choice.job choice.unit (Some (waiting_of pending)) }
{
    let work = work(&state.problem, usize::from(choice.job));
    let start = state
        .ticks
        .free_start(choice.unit, pending.wait, work.length, work.deadline);
    match start {
        Some(start) => Some(Placed::new(choice, start, start + work.length, pending.sent)),
        None => None,
    }
}

/// The decision that puts a job on a unit; None where it can't run there in time.
pub(crate) fn fit(state: &State, choice: Choice) -> Option<Placed>
    requires holds { Holds state.now }
    requires job { choice.job < length state.now.problem.works }
    requires unit { choice.unit < state.now.problem.round.units }
    ensures { result ≡ place state.now.problem state.now.placed.items choice.job choice.unit }
{
    match pending_of(state, choice.job, choice.unit) {
        Some(pending) => start_of(state, choice, pending),
        None => None,
    }
}

/// A unit that can run a job, and the job's end there; None where it can't.
fn fit_on(state: &State, job: u16, unit: u8) -> Option<Fit>
    requires holds { Holds state.now }
    requires job { job < length state.now.problem.works }
    requires unit { unit < state.now.problem.round.units }
    ensures { result ≡ fit_in (if may_run state.now.problem state.now.placed.items job unit then place state.now.problem state.now.placed.items job unit else None) }
{
    if !is_allowed(state, job, unit) {
        return None;
    }
    match fit(state, Choice { job, unit }) {
        Some(placed) => Some(Fit {
            unit: placed.unit(),
            end: placed.end(),
        }),
        None => None,
    }
}

/// The units that can run a ready job, by its end there and then by unit.

pub(crate) fn row(state: &State, job: u16) -> ArrayVec<Fit, 8>
    requires holds { Holds state.now }
    requires job { job < length state.now.problem.works }
    ensures { result.items ≡ map fit_of (row_of state.now.problem state.now.placed.items job state.now.problem.round.units) }
{
    let mut row = ArrayVec::new();
    for unit in 0..state.problem.round.units() {
        let fit = fit_on(state, job, unit);
        put_some(&mut row, fit);
    }
    row
}
