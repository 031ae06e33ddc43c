//! Where and when an event happens.
use mars_base::Side;

/// The replica of an event, by its unit and its side, and the moment: the cycle, and the tick of the replica's clock.
#[derive(Clone, Copy, Debug, PartialEq, Eq)]
pub struct Place {
    /// The cycle.
    pub cycle: u32,
    /// The tick of the replica's clock.
    pub tick: u32,
    /// The unit.
    pub unit: u8,
    /// The side.
    pub side: Side,
}
