//! How many ticks a job takes.
ghost use Rattle.std.specs.Prelude.{◌≡◌, ◌≤◌};
ghost use Rattle.graph.specs.Length.{length_of};

/// The ticks of a job that takes at most so many cycles, at so many cycles a tick: the rounded-up
/// quotient, and at least 1.
pub fn length_of(maxt: u32, cycles_per_tick: u16) -> u32
    requires { 1 ≤ cycles_per_tick }
    ensures ticks { result ≡ length_of maxt cycles_per_tick }
    ensures some { 1 ≤ result }
{
    1.max(maxt.div_ceil(u32::from(cycles_per_tick)))
}
