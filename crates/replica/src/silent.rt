//! A replica that fell silent.
ghost use Rattle.std.specs.Prelude.{◌≡◌, ◌<◌, length, option_copied};
ghost use Rattle.graph.specs.JobGraph.{JobGraph};
ghost use Rattle.cluster_model.specs.Cluster.{fresh_held};
ghost use Rattle.cluster_model.specs.State.{state_in, status_in, given};
ghost use Rattle.replica_work.specs.Works.{set_plan};
ghost use Rattle.replica.specs.Alive.{IsAlive, held_by};

use crate::running::Running;
use plant::Plant;
use processor::Cpu;

/// A replica that fell silent: what it held at that moment. It has no call that takes a bus.
#[derive(Drop)]
pub struct Silent<C> {
    /// The replica as it was.
    pub(crate) last: Running<C>,
}

impl<C: Cpu> Silent<C> {
    /// The tick at which it fell silent.
    pub fn clock(&self) -> u32
        ensures { result ≡ self.now.last.desk.clock }
    {
        self.last.clock()
    }

    /// The state that it keeps of a task of its unit.
    pub fn state(&self, task: u16) -> &[i32]
        requires { task < length self.now.last.desk.states }
        ensures { (g : JobGraph) → result.now ≡ state_in (held_by g self.now.last) task }
    {
        self.last.state(task)
    }

    /// The out words that it gave for a job of its unit in this cycle.
    pub fn outs(&self, job: u16) -> Option<&[i32]>
        requires { job < length self.now.last.desk.book.jobs }
        ensures { (g : JobGraph) → option_copied result ≡ given (status_in (held_by g self.now.last) job) }
    {
        self.last.outs(job)
    }

    /// The begin of the next cycle: it has given nothing in it, and its states stay.
    pub fn next_cycle(&mut self, plant: &Plant<C::Program>)
        requires alive { IsAlive C.runs plant.now self.old.last.duties.unit self.old.last.duties.side self.old.last }
        ensures alive { IsAlive C.runs plant.now self.old.last.duties.unit self.old.last.duties.side self.new.last }
        ensures duties { self.new.last.duties ≡ self.old.last.duties }
        ensures held { held_by plant.now.graph self.new.last ≡ fresh_held (set_plan C.execution plant.now) (held_by plant.now.graph self.old.last).states }
    {
        self.last.next_cycle(plant);
    }
}
