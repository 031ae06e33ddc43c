//! The shape of a cluster and of its bus, and ports.
ghost use Rattle.std.specs.Prelude.{◌≡◌, ◌+◌, ◌*◌, ◌≤◌, ◌↔◌, IsTrue};
ghost use Rattle.mars_base.specs.Shape.{least_round_of, IsShape};

use crate::Text;

/// One of the two replicas of a unit. A comes before B.
#[derive(Clone, Copy, Debug, PartialEq, Eq)]
pub enum Side {
    A,
    B,
}

/// The units of a cluster and the layout of their TDMA bus, after the Mars approach (H. Kopetz et al.,
/// IEEE Micro 9(1), 1989); the exact layout with two slots a unit is this project's own.
#[derive(Clone, Copy, Debug, PartialEq, Eq)]
pub struct ClusterShape {
    /// How many units, 1 to 8.
    pub units: u8,
    /// How many words a frame has, 2 to 64; each takes a tick.
    pub slot_words: u8,
    /// The greatest difference of two clocks, in ticks, 1 to 8; so many idle ticks end each slot.
    pub precision: u8,
    /// How many cycles of the machine a tick has, 1 to 10,000.
    pub cycles_per_tick: u16,
    /// The length of a round in ticks, 1 to 65,536.
    pub round: u32,
}

/// A port of a task.
#[derive(Debug, Drop)]
pub struct Port {
    /// Its name.
    pub name: Text,
    /// How many words it has, 1 to 16.
    pub width: u8,
}

/// The shortest round, in ticks, in which each unit has its two slots: two times the units times the
/// words and idle ticks of a slot.
pub fn least_round(units: u8, slot_words: u8, precision: u8) -> u32
    requires units { (1 ≤ units) × (units ≤ 8) }
    requires slot_words { (2 ≤ slot_words) × (slot_words ≤ 64) }
    requires precision { (1 ≤ precision) × (precision ≤ 8) }
    ensures { result ≡ least_round_of units slot_words precision }
{
    2 * u32::from(units) * (u32::from(slot_words) + u32::from(precision))
}

/// Whether a cluster's numbers are in their limits and the slots of all its units fit in a round.
pub fn is_shape(shape: &ClusterShape) -> bool
    ensures { IsTrue result ↔ IsShape shape.now }
{
    1 <= shape.units
        && shape.units <= 8
        && 2 <= shape.slot_words
        && shape.slot_words <= 64
        && 1 <= shape.precision
        && shape.precision <= 8
        && 1 <= shape.cycles_per_tick
        && shape.cycles_per_tick <= 10_000
        && shape.round <= 65_536
        && least_round(shape.units, shape.slot_words, shape.precision) <= shape.round
}
