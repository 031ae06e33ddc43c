//! The graph of a cycle's jobs.
use crate::feeder::Feeder;
use crate::feeds::{feeders, place_of};
use crate::job::{GraphFault, Job};
use crate::jobs::{job_remaining, list_jobs};
use crate::limits::cycle_within;
use crate::longest::task_remaining;
use crate::net::Net;
use crate::order::order_tasks;
use crate::sequence::{first_jobs, order_jobs};
use std::alloc::Global;
use std::marker::Model;

/// The jobs of a cycle, the order of their numbers, their remaining ticks, and tables from tasks to their
/// first jobs and from in ports to what feeds them. Contracts see it as a `JobGraph`.
#[derive(Debug, Drop)]
pub struct Graph {
    cycle: u32,
    jobs: Vec<Job>,
    order: Vec<u16>,
    remaining: Vec<u64>,
    first_jobs: Vec<u16>,
    feeders: Vec<Option<Feeder>>,
}

impl Model for Graph {
    ghost use Rattle.graph.specs.JobGraph.{JobGraph, IsJobGraph};

    ghost Value = { JobGraph };

    ghost view = { λ g. record { cycle = g.cycle; jobs = g.jobs.items; order = g.order.items; remaining = g.remaining.items; first_jobs = g.first_jobs.items; feeders = g.feeders.items } };

    ghost invariant = { λ g. IsJobGraph (record { cycle = g.cycle; jobs = g.jobs.items; order = g.order.items; remaining = g.remaining.items; first_jobs = g.first_jobs.items; feeders = g.feeders.items }) };
}

impl Graph {
    ghost use Rattle.std.specs.Prelude.{◌≡◌, ◌+◌, ◌<◌, ◌≤◌, Some, All, IfOk, IfErr, length, slice_get, slice_index};
    ghost use Rattle.graph.specs.declared.net.Net.{Net};
    ghost use Rattle.graph.specs.Net.{instances};
    ghost use Rattle.graph.specs.Cycle.{first_job};
    ghost use Rattle.graph.specs.Jobs.{job_number};
    ghost use Rattle.graph.specs.Feeders.{feeder_of};
    ghost use Rattle.graph.specs.FeederTable.{feeder_in};
    ghost use Rattle.graph.specs.NetGraph.{IsNetGraph, IsNetGraphFor};
    ghost use Rattle.graph.specs.Sound.{KeepsRules};
    ghost use Rattle.graph.specs.GraphOf.{IsFaultOf};
    ghost use Rattle.graph.specs.JobGraph.{latest_start_of};

    /// The jobs of a net that keeps the rules, for a length in ticks of each task's jobs. The limits of a
    /// cycle are looked at in the order of the faults, before anything else.
    pub fn jobs(alloc: Global, net: &Net, lengths: &[u32]) -> Result<Graph, GraphFault>
        requires rules { KeepsRules net.now }
        requires lengths { length lengths.now ≡ length net.now.tasks }
        requires some { All (λ n. 1 ≤ n) lengths.now }
        ensures graph { IfOk result (IsNetGraphFor net.now lengths.now) }
        ensures net { IfOk result (IsNetGraph net.now) }
        ensures fault { IfErr result (IsFaultOf net.now) }
    {
        let cycle = cycle_within(net)?;
        let Some(tasks) = order_tasks(alloc, net)? else {
            unreachable!()
        };
        let Some(feeders) = feeders(alloc, net)? else {
            unreachable!()
        };
        let jobs = list_jobs(alloc, net, cycle, lengths)?;
        let first_jobs = first_jobs(alloc, net, cycle)?;
        let order = order_jobs(alloc, net, cycle, first_jobs.as_slice(), tasks.as_slice())?;
        let longest = task_remaining(alloc, net, tasks.as_slice(), lengths)?;
        let remaining = job_remaining(alloc, jobs.as_slice(), longest.as_slice())?;
        Ok(Graph {
            cycle,
            jobs,
            order,
            remaining,
            first_jobs,
            feeders,
        })
    }

    /// How many ticks a cycle has.
    pub fn cycle(&self) -> u32
        ensures { result ≡ self.now.cycle }
    {
        self.cycle
    }

    /// The jobs, by task and then by instance. A job's number is its place here.
    pub fn job_list(&self) -> &[Job]
        ensures { result.now ≡ self.now.jobs }
    {
        self.jobs.as_slice()
    }

    /// The job with a number.
    pub fn job(&self, number: u16) -> Job
        requires { number < length self.now.jobs }
        ensures { slice_get self.now.jobs number ≡ Some result }
    {
        self.jobs[usize::from(number)]
    }

    /// The number of a task's first job.
    pub fn first_job(&self, task: u8) -> u16
        requires { task < length self.now.first_jobs }
        ensures entry { result ≡ slice_index self.now.first_jobs task }
        ensures first { (net : Net) → IsNetGraph net self.now → result ≡ first_job net self.now.cycle task }
    {
        self.first_jobs[usize::from(task)]
    }

    /// The number of the job of a task and an instance.
    pub fn number_of(&self, task: u8, instance: u32) -> u16
        requires task { task < length self.now.first_jobs }
        requires instance { slice_index self.now.first_jobs task + instance < length self.now.jobs }
        ensures entry { result ≡ slice_index self.now.first_jobs task + instance }
        ensures number { (net : Net) → IsNetGraph net self.now → result ≡ job_number net self.now.cycle task instance }
    {
        self.first_jobs[usize::from(task)] + instance as u16
    }

    /// What feeds an in port; None where nothing does.
    pub fn feeder(&self, task: u8, port: u8) -> Option<Feeder>
        requires task { task < 64 }
        requires port { port < 16 }
        ensures entry { result ≡ feeder_in self.now.feeders task port }
        ensures feeder { (net : Net) → IsNetGraph net self.now → result ≡ feeder_of net task port }
    {
        self.feeders[place_of(task, port)]
    }

    /// The numbers of the jobs in order: each place has the least job not yet named whose producers all
    /// stand before it.
    pub fn order(&self) -> &[u16]
        ensures { result.now ≡ self.now.order }
    {
        self.order.as_slice()
    }

    /// The ticks that a job and what must follow it take at least: its length and the greatest of these
    /// numbers of its successors.
    pub fn remaining(&self, job: u16) -> u64
        requires { job < length self.now.jobs }
        ensures { result ≡ slice_index self.now.remaining job }
    {
        self.remaining[usize::from(job)]
    }

    /// The latest tick at which a job may start: its deadline less its remaining ticks.
    pub fn latest_start(&self, job: u16) -> i64
        requires { job < length self.now.jobs }
        ensures { result ≡ latest_start_of self.now job }
    {
        i64::from(self.jobs[usize::from(job)].deadline) - self.remaining[usize::from(job)] as i64
    }
}
