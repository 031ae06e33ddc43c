//! What is known of a cluster between two events.
ghost use Rattle.std.specs.Prelude.{◌≡◌};

use crate::state::Cluster;
use script::Pace;

/// The paces of its script, in their order.
pub fn paces<S>(cluster: &Cluster<S>) -> &[Pace]
    ensures { result.now ≡ cluster.now.script.paces.items }
{
    cluster.script.paces.as_slice()
}
