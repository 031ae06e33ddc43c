//! The order of the jobs.
ghost use Rattle.std.specs.Prelude.{◌≡◌, ℕ, ◌<◌, ◌≤◌, IfOk, OnOk, length, slice_index};
ghost use Rattle.graph.specs.Net.{Feeds, instances};
ghost use Rattle.graph.specs.Sound.{HasCounts, HasEntries};
ghost use Rattle.graph.specs.Cycle.{first_job, job_count};
ghost use Rattle.graph.specs.Order.{IsOrder};
ghost use Rattle.graph.specs.Jobs.{IsProducer, job_number};
ghost use Rattle.graph.specs.Blocks.{IsBlock, HasCome};

use crate::net::Net;
use mars_base::Memory;
use std::alloc::Global;

/// The number of each task's first job.
pub(crate) fn first_jobs(alloc: Global, net: &Net, cycle: u32) -> Result<Vec<u16>, Memory>
    requires counts { HasCounts net.now }
    requires entries { HasEntries net.now }
    requires jobs { job_count net.now cycle ≤ 512 }
    ensures size { IfOk result (λ firsts. length firsts.items ≡ length net.now.tasks) }
    ensures each { IfOk result (λ firsts. (t : ℕ) → t < length net.now.tasks → slice_index firsts.items t ≡ first_job net.now cycle t) }
{
    let mut firsts = Vec::new(alloc);
    let mut next = 0u16;
    for task in 0..net.tasks.len() as u8 {
        firsts.push(next)?;
        next += net.instances(cycle, task) as u16;
    }
    Ok(firsts)
}

/// The number of a job: its task's first, and as many as its instance after it.
fn number(net: &Net, cycle: u32, firsts: &[u16], task: u8, instance: u32) -> u16
    requires jobs { job_count net.now cycle ≤ 512 }
    requires size { length firsts.now ≡ length net.now.tasks }
    requires firsts { (t : ℕ) → t < length net.now.tasks → slice_index firsts.now t ≡ first_job net.now cycle t }
    requires task { task < length net.now.tasks }
    requires instance { instance < instances net.now cycle task }
    ensures { result ≡ job_number net.now cycle task instance }
{
    firsts[usize::from(task)] + instance as u16
}

/// The end of the block that begins at a place: the first later place with a greater task.
fn block_end(tasks: &[u8], from: usize) -> usize
    requires { from < length tasks.now }
    ensures { IsBlock tasks.now from result }
{
    let mut to = from + 1;
    while to < tasks.len() && tasks[to] < tasks[from] {
        to += 1;
    }
    to
}

/// Names one instance of a block's tasks.
fn push_instance(
    order: &mut Vec<u16>,
    net: &Net,
    cycle: u32,
    firsts: &[u16],
    tasks: &[u8],
    from: usize,
    to: usize,
    instance: u32,
) -> Result<(), Memory>
    requires entries { HasEntries net.now }
    requires jobs { job_count net.now cycle ≤ 512 }
    requires size { length firsts.now ≡ length net.now.tasks }
    requires firsts { (t : ℕ) → t < length net.now.tasks → slice_index firsts.now t ≡ first_job net.now cycle t }
    requires tasks { IsOrder (Feeds net.now) (length net.now.tasks) tasks.now }
    requires block { IsBlock tasks.now from to }
    requires instance { instance < instances net.now cycle (slice_index tasks.now from) }
    requires come { HasCome net.now cycle tasks.now order.old.items from to from instance }
    ensures { OnOk result (HasCome net.now cycle tasks.now order.new.items from to to instance) }
{
    for place in from..to {
        order.push(number(net, cycle, firsts, tasks[place], instance))?;
    }
    Ok(())
}

/// Names all instances of a block's tasks.
fn push_block(
    order: &mut Vec<u16>,
    net: &Net,
    cycle: u32,
    firsts: &[u16],
    tasks: &[u8],
    from: usize,
    to: usize,
) -> Result<(), Memory>
    requires entries { HasEntries net.now }
    requires jobs { job_count net.now cycle ≤ 512 }
    requires size { length firsts.now ≡ length net.now.tasks }
    requires firsts { (t : ℕ) → t < length net.now.tasks → slice_index firsts.now t ≡ first_job net.now cycle t }
    requires tasks { IsOrder (Feeds net.now) (length net.now.tasks) tasks.now }
    requires block { IsBlock tasks.now from to }
    requires come { HasCome net.now cycle tasks.now order.old.items from to from 0 }
    ensures { OnOk result (HasCome net.now cycle tasks.now order.new.items to to to 0) }
{
    for instance in 0..net.instances(cycle, tasks[from]) {
        push_instance(order, net, cycle, firsts, tasks, from, to, instance)?;
    }
    Ok(())
}

/// The numbers of the jobs in order. The order of the tasks falls into blocks, each up to the next task
/// with a greater number; the jobs of a block stand instance by instance.
pub(crate) fn order_jobs(
    alloc: Global,
    net: &Net,
    cycle: u32,
    firsts: &[u16],
    tasks: &[u8],
) -> Result<Vec<u16>, Memory>
    requires counts { HasCounts net.now }
    requires entries { HasEntries net.now }
    requires jobs { job_count net.now cycle ≤ 512 }
    requires size { length firsts.now ≡ length net.now.tasks }
    requires firsts { (t : ℕ) → t < length net.now.tasks → slice_index firsts.now t ≡ first_job net.now cycle t }
    requires tasks { IsOrder (Feeds net.now) (length net.now.tasks) tasks.now }
    ensures { IfOk result (λ order. IsOrder (IsProducer net.now cycle) (job_count net.now cycle) order.items) }
{
    let mut order = Vec::new(alloc);
    let mut from = 0;
    while from < tasks.len() {
        let to = block_end(tasks, from);
        push_block(&mut order, net, cycle, firsts, tasks, from, to)?;
        from = to;
    }
    Ok(order)
}
