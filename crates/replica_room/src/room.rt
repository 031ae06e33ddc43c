//! The whole memory of a replica.
ghost use Rattle.std.specs.Prelude.{IfOk};
ghost use Rattle.plant.specs.InOrder.{IsInOrder};
ghost use Rattle.replica_room.specs.Room.{IsFirstRoom};

use crate::jobs::{book_of, outs_room};
use crate::messages::inbox_of;
use crate::states::{state_room, states_of};
use job_book::JobBook;
use mars_base::Memory;
use plant::Plant;
use replica_parts::Inbox;
use std::alloc::Global;
use task_words::{InWords, TaskStates};

/// All memory of a replica. After `new` none of it is taken any more.
#[derive(Drop)]
pub struct Room {
    /// What is known of each job of the cycle.
    pub book: JobBook,
    /// What was taken of each message of the cycle.
    pub inbox: Inbox,
    /// The states of the unit's own tasks.
    pub states: TaskStates,
    /// The inputs of the job in hand.
    pub ins: InWords,
    /// Room for the outputs of any job.
    pub outs: Vec<i32>,
    /// Room for the state of any task.
    pub state: Vec<i32>,
}

impl Room {
    /// The memory of a replica of a unit, as it is before the first cycle.
    pub fn new<P>(alloc: Global, plant: &Plant<P>, unit: u8) -> Result<Room, Memory>
        requires { IsInOrder plant.now }
        ensures { IfOk result (IsFirstRoom plant.now unit) }
    {
        let words = plant.states.as_slice();
        let book = book_of(alloc, &plant.net, &plant.graph)?;
        let inbox = inbox_of(alloc, &plant.net, &plant.tables)?;
        let states = states_of(alloc, &plant.net, &plant.graph, &plant.tables, words, unit)?;
        let ins = InWords::new(alloc)?;
        let outs = outs_room(alloc)?;
        let state = state_room(alloc, words)?;
        Ok(Room {
            book,
            inbox,
            states,
            ins,
            outs,
            state,
        })
    }
}
