//! Silences and paces.
ghost use Rattle.std.specs.Prelude.{◌≡◌, ◌↔◌, ◌<◌, IsTrue};
ghost use Rattle.script.specs.Running.{LeavesRunning, IsRunning, IsLost};

use mars_base::Side;

/// A replica falls silent at a tick of a cycle, and stays so.
#[derive(Clone, Copy, Debug, PartialEq, Eq)]
pub struct Silence {
    /// Its unit, from 0.
    pub unit: u8,
    /// Which replica of the unit.
    pub side: Side,
    /// The cycle, from 0.
    pub cycle: u32,
    /// The tick of that cycle, from 0: the first that it doesn't perform.
    pub tick: u32,
}

/// A replica makes up to so many events at the begin of a cycle, before the others.
#[derive(Clone, Copy, Debug, PartialEq, Eq)]
pub struct Pace {
    /// The cycle, from 0.
    pub cycle: u32,
    /// Its unit, from 0.
    pub unit: u8,
    /// Which replica of the unit.
    pub side: Side,
    /// How many events at most, 1 to 65,536.
    pub count: u32,
}

/// What happens to the replicas of a cluster, cycle by cycle.
#[derive(Debug, Drop)]
pub struct Script {
    /// The silences, in any order; of several of one replica the earliest counts.
    pub silences: Vec<Silence>,
    /// The paces, in their order.
    pub paces: Vec<Pace>,
}

impl Script {
    /// Whether a replica runs at a tick of a cycle: no silence of its own is at that moment or before it.
    pub fn is_running(&self, unit: u8, side: Side, cycle: u32, tick: u32) -> bool
        ensures { IsTrue result ↔ IsRunning self.now.silences.items unit side cycle tick }
    {
        self.silences
            .iter()
            .all(|silence| leaves_running(silence, unit, side, cycle, tick))
    }

    /// Whether a unit is lost in a cycle of so many ticks: at some tick of it neither replica runs.
    #[tactic(auto, using(crate::proofs::Shrinks::lost_at))]
    pub fn is_lost(&self, unit: u8, cycle: u32, ticks: u32) -> bool
        requires { 0 < ticks }
        ensures { IsTrue result ↔ IsLost self.now.silences.items ticks unit cycle }
    {
        let last = ticks - 1;
        !self.is_running(unit, Side::A, cycle, last) && !self.is_running(unit, Side::B, cycle, last)
    }
}

// Whether a silence leaves a replica running at a moment: it is another's, or later.
fn leaves_running(silence: &Silence, unit: u8, side: Side, cycle: u32, tick: u32) -> bool
    ensures { IsTrue result ↔ LeavesRunning silence.now unit side cycle tick }
{
    silence.unit != unit
        || silence.side != side
        || cycle < silence.cycle
        || (cycle == silence.cycle && tick < silence.tick)
}
