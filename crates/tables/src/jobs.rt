//! The rules on the entries of jobs.
ghost use Rattle.std.specs.Prelude.{◌≡◌, ◌≢◌, ℕ, ◌<◌, ◌≤◌, ◌+◌, ◌↔◌, length, IsTrue, get_or};
ghost use Rattle.graph.specs.Net.{IsAllowed};
ghost use Rattle.tables.specs.Progress.{IsApart};
ghost use Rattle.tables.specs.Named.{job_at, entry_at, no_entry, RunsAt, ShareATick};
ghost use Rattle.tables.specs.Rules.{HasEachJob, HasLengths, SharesNoTick, StartsAfterRelease, EndsByDeadline};

use crate::table::{JobEntry, Tables};
use graph::{Graph, Job};

fn are_numbered(entries: &[JobEntry]) -> bool
    ensures { IsTrue result ↔ ((job : ℕ) → job < length entries.now → (get_or entries.now job no_entry).job ≡ job) }
{
    for number in 0..entries.len() {
        if usize::from(entries[number].job) != number {
            return false;
        }
    }
    true
}

/// Whether there is an entry for each job, and entry i is that of job i.
pub(crate) fn has_each_job(tables: &Tables, graph: &Graph) -> bool
    ensures { IsTrue result ↔ HasEachJob graph.now tables.now }
{
    tables.jobs.len() == graph.job_list().len() && are_numbered(tables.jobs.as_slice())
}

fn has_length(entry: &JobEntry, job: &Job) -> bool
    ensures { IsTrue result ↔ (entry.now.start + job.now.length ≡ entry.now.end) }
{
    u64::from(entry.start) + u64::from(job.length) == u64::from(entry.end)
}

/// Whether each job's ticks are as many as its length.
pub(crate) fn has_lengths(tables: &Tables, graph: &Graph) -> bool
    requires { HasEachJob graph.now tables.now }
    ensures { IsTrue result ↔ HasLengths graph.now tables.now }
{
    let jobs = graph.job_list();
    let entries = tables.jobs.as_slice();
    for number in 0..jobs.len() {
        if !has_length(&entries[number], &jobs[number]) {
            return false;
        }
    }
    true
}

/// Whether no job starts before its release.
pub(crate) fn starts_after_release(tables: &Tables, graph: &Graph) -> bool
    requires { HasEachJob graph.now tables.now }
    ensures { IsTrue result ↔ StartsAfterRelease graph.now tables.now }
{
    let jobs = graph.job_list();
    let entries = tables.jobs.as_slice();
    for number in 0..jobs.len() {
        if entries[number].start < jobs[number].release {
            return false;
        }
    }
    true
}

/// Whether each job ends by its deadline.
pub(crate) fn ends_by_deadline(tables: &Tables, graph: &Graph) -> bool
    requires { HasEachJob graph.now tables.now }
    ensures { IsTrue result ↔ EndsByDeadline graph.now tables.now }
{
    let jobs = graph.job_list();
    let entries = tables.jobs.as_slice();
    for number in 0..jobs.len() {
        if jobs[number].deadline < entries[number].end {
            return false;
        }
    }
    true
}

fn run_together(entry: &JobEntry, other: &JobEntry) -> bool
    ensures { IsTrue result ↔ ((tick : ℕ) × RunsAt entry.now tick × RunsAt other.now tick) }
{
    entry.start.max(other.start) < entry.end.min(other.end)
}

fn share_a_tick(entry: &JobEntry, other: &JobEntry) -> bool
    ensures { IsTrue result ↔ ShareATick entry.now other.now }
{
    entry.unit == other.unit && run_together(entry, other)
}

fn is_apart(entries: &[JobEntry], job: usize) -> bool
    requires { job < length entries.now }
    ensures { IsTrue result ↔ IsApart entries.now job (length entries.now) }
{
    let entry = entries[job];
    for other in 0..entries.len() {
        if other != job && share_a_tick(&entry, &entries[other]) {
            return false;
        }
    }
    true
}

/// Whether no two jobs of one unit run at one tick.
pub(crate) fn shares_no_tick(tables: &Tables, graph: &Graph) -> bool
    requires { HasEachJob graph.now tables.now }
    ensures { IsTrue result ↔ SharesNoTick graph.now tables.now }
{
    let entries = tables.jobs.as_slice();
    for job in 0..entries.len() {
        if !is_apart(entries, job) {
            return false;
        }
    }
    true
}
