//! All that a cluster runs by.
use graph::{Graph, Net};
use sqlite_items::Items;
use tables::Tables;

/// All that a cluster runs by, with programs of any processor. Contracts see each list as a list and the
/// graph as a `JobGraph`.
#[derive(Debug, Drop)]
pub struct Plant<P> {
    /// The project in numbers.
    pub net: Net,
    /// The jobs of a cycle.
    pub graph: Graph,
    /// When each job runs, and in which frame each message goes.
    pub tables: Tables,
    /// The program of each task.
    pub programs: Items<P>,
    /// The greatest number of cycles of each task's executions.
    pub maxts: Items<u32>,
    /// How many state words each task has.
    pub states: Items<u16>,
}

impl<P> Plant<P> {
    ghost use Rattle.std.specs.Prelude.{◌≡◌, ◌<◌, Some, length, slice_get};

    /// The program of a task.
    pub fn program(&self, task: u8) -> &P
        requires { task < length self.now.programs }
        ensures { slice_get self.now.programs task ≡ Some result.now }
    {
        &self.programs.as_slice()[usize::from(task)]
    }

    /// The greatest number of cycles of a task's executions.
    pub fn maxt(&self, task: u8) -> u32
        requires { task < length self.now.maxts }
        ensures { slice_get self.now.maxts task ≡ Some result }
    {
        self.maxts.as_slice()[usize::from(task)]
    }

    /// How many state words a task has.
    pub fn state_words(&self, task: u8) -> u16
        requires { task < length self.now.states }
        ensures { slice_get self.now.states task ≡ Some result }
    {
        self.states.as_slice()[usize::from(task)]
    }
}
