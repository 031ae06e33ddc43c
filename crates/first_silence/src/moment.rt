//! Moments and first silences.
ghost use Rattle.std.specs.Prelude.{◌≡◌};
ghost use Rattle.cluster_model.specs.Silences.{same_side};
ghost use Rattle.first_silence.specs.Moments.{IsFirstSilence, is_reached, is_sooner, own, sooner};

use mars_base::Side;
use script::Silence;

/// A tick of a cycle. Moments are ordered by cycle and then by tick.
#[derive(Clone, Copy, Debug, PartialEq, Eq)]
pub struct Moment {
    /// The cycle, from 0.
    pub cycle: u32,
    /// The tick of that cycle, from 0.
    pub tick: u32,
}

/// The moment from which on a replica is silent, by a script's silences in any order; None where it never is.
pub fn first_silence(silences: &[Silence], unit: u8, side: Side) -> Option<Moment>
    ensures { IsFirstSilence silences.now unit side result }
{
    let mut first = None;
    for silence in silences {
        first = sooner(first, own(silence, unit, side));
    }
    first
}

/// Whether a moment is at a tick of a cycle or before it; no where there is none.
pub fn is_reached(first: Option<Moment>, cycle: u32, tick: u32) -> bool
    ensures { result ≡ is_reached first cycle tick }
{
    match first {
        None => false,
        Some(moment) => { moment.cycle < cycle || (moment.cycle == cycle && moment.tick <= tick) }
    }
}

// The sooner one of two moments, where there is one.
fn sooner(one: Option<Moment>, other: Option<Moment>) -> Option<Moment>
    ensures { result ≡ sooner one other }
{
    match (one, other) {
        (None, _) => other,
        (Some(_), None) => one,
        (Some(m), Some(n)) => { if is_sooner(n, m) { other } else { one } }
    }
}

// Whether the first moment is before the second.
fn is_sooner(m: Moment, n: Moment) -> bool
    ensures { result ≡ is_sooner m n }
{
    m.cycle < n.cycle || (m.cycle == n.cycle && m.tick < n.tick)
}

// The moment of a silence, where it is this replica's.
fn own(silence: &Silence, unit: u8, side: Side) -> Option<Moment>
    ensures { result ≡ own unit side silence.now }
{
    if silence.unit == unit && is_same(silence.side, side) {
        Some(Moment {
            cycle: silence.cycle,
            tick: silence.tick,
        })
    } else {
        None
    }
}

// Whether two sides are one.
fn is_same(one: Side, other: Side) -> bool
    ensures { result ≡ same_side one other }
{
    match (one, other) {
        (Side::A, Side::A) | (Side::B, Side::B) => true,
        (Side::A, Side::B) | (Side::B, Side::A) => false,
    }
}
