//! The state of a cluster.
ghost use Rattle.std.specs.Prelude.{◌≡◌};

use bus::Bus;
use cluster_clocks::Clock;
use cycle_line::CycleLine;
use effect_buf::EffectBuf;
use first_silence::Moment;
use script::Script;
use task_words::TaskStates;

/// A cluster: its replicas in their seats, of each unit A and then B, and all else that is between two events.
#[derive(Drop)]
pub struct Cluster<S> {
    /// The replicas.
    pub(crate) seats: Vec<S>,
    /// The clock of each replica.
    pub(crate) clocks: Vec<Clock>,
    /// The slots of the cycle.
    pub(crate) bus: Bus,
    /// The number of the cycle.
    pub(crate) cycle: u32,
    /// The line of the cycle's events.
    pub(crate) line: CycleLine,
    /// The state of each task at the cycle's start.
    pub(crate) starts: TaskStates,
    /// The silences and the paces.
    pub(crate) script: Script,
    /// From which moment on each replica is silent.
    pub(crate) firsts: Vec<Option<Moment>>,
    /// What was seen of the last event.
    pub(crate) seen: EffectBuf,
}

/// The number of the cycle, from 0.
pub fn cycle_number<S>(cluster: &Cluster<S>) -> u32
    ensures { result ≡ cluster.now.cycle }
{
    cluster.cycle
}
