//! The jobs of a cycle.
ghost use Rattle.std.specs.Prelude.{◌≡◌, ◌<◌, ◌≤◌, ◌++◌, All, IfOk, OnOk, length, map, slice_index};
ghost use Rattle.graph.specs.declared.job.Job.{Job};
ghost use Rattle.graph.specs.Net.{instances};
ghost use Rattle.graph.specs.Sound.{HasCounts, HasEntries};
ghost use Rattle.graph.specs.Jobs.{jobs_of_task, jobs_of};

use crate::job::Job;
use crate::net::Net;
use mars_base::Memory;
use std::alloc::Global;

/// Appends the jobs of a task.
fn push_jobs(
    jobs: &mut Vec<Job>,
    net: &Net,
    cycle: u32,
    lengths: &[u32],
    task: u8,
) -> Result<(), Memory>
    requires entries { HasEntries net.now }
    requires task { task < length net.now.tasks }
    requires lengths { length lengths.now ≡ length net.now.tasks }
    requires ticks { cycle ≤ 65536 }
    ensures { OnOk result (jobs.new.items ≡ jobs.old.items ++ jobs_of_task net.now lengths.now task (instances net.now cycle task)) }
{
    let period = net.period_of(task);
    let deadline = net.deadline_of(task);
    let length = lengths[usize::from(task)];
    for instance in 0..net.instances(cycle, task) {
        let release = instance * period;
        jobs.push(Job {
            task,
            instance,
            release,
            deadline: release + deadline,
            length,
        })?;
    }
    Ok(())
}

/// The jobs of a cycle, by task and then by instance.
pub(crate) fn list_jobs(
    alloc: Global,
    net: &Net,
    cycle: u32,
    lengths: &[u32],
) -> Result<Vec<Job>, Memory>
    requires counts { HasCounts net.now }
    requires entries { HasEntries net.now }
    requires lengths { length lengths.now ≡ length net.now.tasks }
    requires ticks { cycle ≤ 65536 }
    ensures { IfOk result (λ jobs. jobs.items ≡ jobs_of net.now cycle lengths.now (length net.now.tasks)) }
{
    let mut jobs = Vec::new(alloc);
    for task in 0..net.tasks.len() as u8 {
        push_jobs(&mut jobs, net, cycle, lengths, task)?;
    }
    Ok(jobs)
}

/// The numbers of the tasks, for each of their jobs.
pub(crate) fn job_remaining(alloc: Global, jobs: &[Job], tasks: &[u64]) -> Result<Vec<u64>, Memory>
    requires { All (λ (j : Job). j.task < length tasks.now) jobs.now }
    ensures { IfOk result (λ list. list.items ≡ map (λ (j : Job). slice_index tasks.now j.task) jobs.now) }
{
    let mut list = Vec::new(alloc);
    for job in jobs {
        list.push(tasks[usize::from(job.task)])?;
    }
    Ok(list)
}
