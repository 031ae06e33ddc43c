//! What feeds the in ports of a net.

/// What feeds an in port: an edge or a sensor, by its number.
#[derive(Clone, Copy, Debug, PartialEq, Eq)]
pub enum Feeder {
    /// The edge with this number.
    Edge(u16),
    /// The sensor with this number.
    Sensor(u16),
}
