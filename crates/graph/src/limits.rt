//! How long a cycle is, and how much it holds.
ghost use Rattle.std.specs.Prelude.{◌≡◌, ◌+◌, ◌*◌, ◌<◌, ◌≤◌, ◌^◌, [], ◌∷◌, length, MatchResult};
ghost use Rattle.std.specs.Int.{IsGcd};
ghost use Rattle.graph.specs.Net.{period_of};
ghost use Rattle.mars_base.specs.Shape.{IsShape};
ghost use Rattle.graph.specs.Sound.{HasCounts, HasEntries};
ghost use Rattle.graph.specs.Cycle.{IsLeastMultiple, IsCycle, job_count, sensor_words, words_of_sensor, IsWithinLimits};
ghost use Rattle.graph.specs.Faults.{PassesLimit};

use crate::job::GraphFault;
use crate::net::{Net, Plug};

/// The most ticks of a cycle.
const MOST_TICKS: u64 = 65_536;

/// The most jobs of a cycle.
const MOST_JOBS: u64 = 512;

/// The most sensor words of a cycle.
const MOST_WORDS: u64 = 4_096;

fn gcd(first: u64, second: u64) -> u64
    ensures { IsGcd first second result }
{
    let mut a = first;
    let mut b = second;
    while b != 0 {
        let rest = a % b;
        a = b;
        b = rest;
    }
    a
}

fn least_multiple(a: u32, b: u32) -> u64
    requires { (1 ≤ a) × (1 ≤ b) }
    ensures multiple { IsLeastMultiple (a ∷ b ∷ []) result }
    ensures some { 1 ≤ result }
{
    let common = gcd(u64::from(a), u64::from(b));
    u64::from(a) / common * u64::from(b)
}

/// The ticks of a cycle, or the first value past the most.
fn cycle_of(net: &Net) -> Result<u32, GraphFault>
    requires shape { IsShape net.now.shape }
    requires entries { HasEntries net.now }
    ensures { MatchResult result (λ cycle. IsCycle net.now cycle × (1 ≤ cycle) × (cycle ≤ 65536)) (PassesLimit net.now) }
{
    let mut cycle = net.shape.round;
    for transaction in net.transactions.as_slice() {
        let longer = least_multiple(cycle, transaction.period);
        if longer > MOST_TICKS {
            return Err(GraphFault::CycleTooLong(longer));
        }
        cycle = longer as u32;
    }
    Ok(cycle)
}

/// How many jobs a cycle has.
fn count_jobs(net: &Net, cycle: u32) -> u64
    requires counts { HasCounts net.now }
    requires entries { HasEntries net.now }
    ensures { result ≡ job_count net.now cycle }
{
    let mut jobs = 0;
    for task in 0..net.tasks.len() as u8 {
        jobs += u64::from(net.instances(cycle, task));
    }
    jobs
}

fn words_of_sensor(net: &Net, cycle: u32, sensor: &Plug) -> u64
    requires { 1 ≤ period_of net.now sensor.now.task }
    ensures words { result ≡ words_of_sensor net.now cycle sensor.now }
    ensures few { result < 2 ^ 40 }
{
    let width = match net.ins_of(sensor.task).get(usize::from(sensor.port)) {
        Some(width) => u64::from(*width),
        None => 0,
    };
    width * u64::from(net.instances(cycle, sensor.task))
}

/// How many sensor words a cycle has.
fn count_words(net: &Net, cycle: u32) -> u64
    requires counts { HasCounts net.now }
    requires entries { HasEntries net.now }
    ensures { result ≡ sensor_words net.now cycle }
{
    let mut words = 0;
    for sensor in net.sensors.as_slice() {
        words += words_of_sensor(net, cycle, sensor);
    }
    words
}

/// The ticks of a cycle, or the first limit that a cycle passes.
pub(crate) fn cycle_within(net: &Net) -> Result<u32, GraphFault>
    requires shape { IsShape net.now.shape }
    requires counts { HasCounts net.now }
    requires entries { HasEntries net.now }
    ensures { MatchResult result (λ cycle. IsWithinLimits net.now cycle × (1 ≤ cycle)) (PassesLimit net.now) }
{
    let cycle = cycle_of(net)?;
    let jobs = count_jobs(net, cycle);
    if jobs > MOST_JOBS {
        return Err(GraphFault::TooManyJobs(jobs));
    }
    let words = count_words(net, cycle);
    if words > MOST_WORDS {
        return Err(GraphFault::TooManySensorWords(words));
    }
    Ok(cycle)
}
