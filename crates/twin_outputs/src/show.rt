//! The effects of a tick, without the outputs that the twin has given before.
ghost use Rattle.std.specs.Prelude.{◌≡◌, ◌<◌, ◌≤◌, ◌+◌, ◌++◌, [], None, length};
ghost use Rattle.cluster_model.specs.Effects.{is_output};
ghost use Rattle.cluster_model.specs.State.{given, status_in};
ghost use Rattle.event_effects.specs.Effects.{is_given, other};
ghost use Rattle.twin_outputs.specs.Shown.{ended_last, has_given, shown, shown_beside};

use cluster_model::Effect;
use cluster_seats::Seat;
use effect_buf::EffectBuf;
use mars_base::Side;

/// The other side.
pub fn other(side: Side) -> Side
    ensures { result ≡ other side }
{
    match side {
        Side::A => Side::B,
        Side::B => Side::A,
    }
}

/// Shows the effects of a replica's tick, but for the outputs of a job that its twin has given before. The twin holds so
/// many jobs.
pub fn show_beside<S: Seat>(twin: &S, jobs: usize, effects: &[Effect], seen: &mut EffectBuf)
    requires jobs { length (S.seat twin.now).held.jobs ≡ jobs }
    requires few { length effects.now ≤ 1028 }
    requires room { seen.old ≡ [] }
    ensures { seen.new ≡ shown_beside (S.seat twin.now).held None effects.now }
{
    let mut last = None;
    for effect in effects {
        last = ended_last(last, effect);
        show_one(twin, jobs, last, effect, seen);
    }
}

// The job of the last end, this effect's included.
fn ended_last(last: Option<u16>, effect: &Effect) -> Option<u16>
    ensures { result ≡ ended_last last effect.now }
{
    match effect {
        Effect::End { job, .. } => Some(*job),
        _ => last,
    }
}

// Shows an effect behind the end of a job, unless it is one of the job's outputs and the twin has given them.
fn show_one<S: Seat>(
    twin: &S,
    jobs: usize,
    last: Option<u16>,
    effect: &Effect,
    seen: &mut EffectBuf,
)
    requires jobs { length (S.seat twin.now).held.jobs ≡ jobs }
    requires room { length seen.old < 1028 }
    ensures shown { seen.new ≡ seen.old ++ shown (S.seat twin.now).held last effect.now }
    ensures few { length seen.new ≤ length seen.old + 1 }
{
    let is_again = is_output(effect) && has_given(twin, jobs, last);
    if !is_again {
        seen.push(*effect);
    }
}

// Whether an effect is an output.
fn is_output(effect: &Effect) -> bool
    ensures { result ≡ is_output effect.now }
{
    matches!(effect, Effect::Out { .. })
}

// Whether a replica has given the outputs of the job that ended last.
fn has_given<S: Seat>(twin: &S, jobs: usize, last: Option<u16>) -> bool
    requires jobs { length (S.seat twin.now).held.jobs ≡ jobs }
    ensures { result ≡ has_given (S.seat twin.now).held last }
{
    match last {
        Some(job) => gave(twin, jobs, job),
        None => false,
    }
}

// Whether a replica has given the outputs of a job.
fn gave<S: Seat>(twin: &S, jobs: usize, job: u16) -> bool
    requires jobs { length (S.seat twin.now).held.jobs ≡ jobs }
    ensures { result ≡ is_given (given (status_in (S.seat twin.now).held job)) }
{
    usize::from(job) < jobs && twin.outs(job).is_some()
}
