//! The book of a replica's jobs.
ghost use Rattle.std.specs.Prelude.{◌≡◌, ◌≤◌, IfOk, length, map, sum};
ghost use Rattle.graph.specs.Net.{outs_of};
ghost use Rattle.graph.specs.NetGraph.{IsNetGraph};
ghost use Rattle.graph.specs.Sound.{HasEntries};
ghost use Rattle.graph.specs.declared.job.Job.{Job};
ghost use Rattle.replica_room.specs.Fresh.{AreFreshJobs};

use graph::{Graph, Net};
use job_book::JobBook;
use mars_base::Memory;
use std::alloc::Global;

/// A book of all jobs of the graph with room for their outputs, as a replica has it at the start of a cycle. No later
/// call takes memory.
pub fn book_of(alloc: Global, net: &Net, graph: &Graph) -> Result<JobBook, Memory>
    requires { IsNetGraph net.now graph.now }
    ensures { IfOk result (AreFreshJobs net.now graph.now) }
{
    let rooms = rooms_of(alloc, net, graph)?;
    JobBook::new(alloc, rooms.as_slice())
}

// For each job how many words it gives.
fn rooms_of(alloc: Global, net: &Net, graph: &Graph) -> Result<Vec<u16>, Memory>
    requires { IsNetGraph net.now graph.now }
    ensures { IfOk result (λ rooms. rooms.items ≡ map (λ (job : Job). sum (outs_of net.now job.task)) graph.now.jobs) }
{
    let mut rooms = Vec::new(alloc);
    for job in graph.job_list() {
        rooms.push(words_given(net, job.task))?;
    }
    Ok(rooms)
}

/// How many words a job of a task gives, at most 256: those of its out ports. It is 0 where there is no such task.
pub fn words_given(net: &Net, task: u8) -> u16
    requires { HasEntries net.now }
    ensures words { result ≡ sum (outs_of net.now task) }
    ensures few { result ≤ 256 }
{
    let mut words = 0;
    for width in net.outs_of(task) {
        words += u16::from(*width);
    }
    words
}

/// Room for the words that a job gives, whichever it is.
pub fn outs_room(alloc: Global) -> Result<Vec<i32>, Memory>
    ensures { IfOk result (λ room. length room.items ≡ 256) }
{
    Ok(vec![in alloc; 0i32; 256]?)
}
