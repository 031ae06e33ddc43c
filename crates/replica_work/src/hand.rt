//! The job in hand.
ghost use Rattle.std.specs.Prelude.{◌≡◌, ◌<◌, length};
ghost use Rattle.tables.specs.Named.{job_at};

use graph::{Graph, Job};

/// The job of a number.
pub fn job_of(graph: &Graph, job: u16) -> Job
    requires { job < length graph.now.jobs }
    ensures { result ≡ job_at graph.now job }
{
    graph.job(job)
}
