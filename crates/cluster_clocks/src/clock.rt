//! Clocks.
ghost use Rattle.std.specs.Prelude.{◌≡◌, ◌<◌, ◌↔◌, IsTrue, All, Any, length, true};
ghost use Rattle.cluster_clocks.specs.Clocks.{IsClose, MayAct, IsThrough, IsOver};
ghost use Rattle.cluster_clocks.specs.declared.clock.Clock.{Clock};

/// Where a replica stands in a cycle.
#[derive(Clone, Copy, Debug, PartialEq, Eq)]
pub struct Clock {
    /// The next tick that it performs, from 0; the cycle's length where it has performed all.
    pub tick: u32,
    /// Whether it runs; else it fell silent.
    pub is_running: bool,
}

/// Whether a replica may have an event: it runs, its clock is before the end of a cycle of so many ticks, and
/// it is less than `precision` ticks ahead of each replica that runs.
pub fn may_act(clocks: &[Clock], replica: usize, cycle: u32, precision: u8) -> bool
    requires { replica < length clocks.now }
    ensures { IsTrue result ↔ MayAct clocks.now replica cycle precision }
{
    let clock = clocks[replica];
    clock.is_running && clock.tick < cycle && are_close(clocks, clock.tick, precision)
}

/// Whether a cycle of so many ticks is over: some replicas run, and all that run have come to its end.
pub fn is_over(clocks: &[Clock], cycle: u32) -> bool
    ensures { IsTrue result ↔ IsOver clocks.now cycle }
{
    some_runs(clocks) && are_through(clocks, cycle)
}

// Whether a tick is less than so many ticks ahead of the clock of each replica that runs.
fn are_close(clocks: &[Clock], tick: u32, precision: u8) -> bool
    ensures { IsTrue result ↔ All (IsClose tick precision) clocks.now }
{
    clocks.iter().all(|clock| is_close(clock, tick, precision))
}

// Whether a tick is less than so many ticks ahead of a clock, where its replica runs.
fn is_close(clock: &Clock, tick: u32, precision: u8) -> bool
    ensures { IsTrue result ↔ IsClose tick precision clock.now }
{
    !clock.is_running || u64::from(tick) < u64::from(clock.tick) + u64::from(precision)
}

// Whether a replica runs.
fn some_runs(clocks: &[Clock]) -> bool
    ensures { IsTrue result ↔ Any (λ (c : Clock). c.is_running ≡ true) clocks.now }
{
    clocks.iter().any(|clock| clock.is_running)
}

// Whether all replicas that run have come to the end of a cycle of so many ticks.
fn are_through(clocks: &[Clock], cycle: u32) -> bool
    ensures { IsTrue result ↔ All (IsThrough cycle) clocks.now }
{
    clocks.iter().all(|clock| is_through(clock, cycle))
}

// Whether a replica is silent or has come to the end of a cycle of so many ticks.
fn is_through(clock: &Clock, cycle: u32) -> bool
    ensures { IsTrue result ↔ IsThrough cycle clock.now }
{
    !clock.is_running || clock.tick == cycle
}
