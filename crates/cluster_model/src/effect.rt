//! What is seen of an event.
use mars_base::Side;

/// What a replica does in an event.
#[derive(Clone, Copy, Debug, PartialEq, Eq)]
pub enum Effect {
    /// It takes a unit's frame of a round, from this side.
    Take {
        /// The unit that sent the frame.
        from: u8,
        /// The replica whose frame it is.
        side: Side,
        /// The round.
        round: u32,
    },
    /// Neither frame of a unit's round is whole.
    Miss {
        /// The unit whose frame is missed.
        from: u8,
        /// The round.
        round: u32,
    },
    /// It puts a word into its slot.
    Put {
        /// The word.
        word: i32,
    },
    /// A job starts.
    Start {
        /// The number of the job.
        job: u16,
    },
    /// A job is skipped, since an input is lacking.
    Skip {
        /// The number of the job.
        job: u16,
    },
    /// A job ends and gives its outputs.
    End {
        /// The number of the job.
        job: u16,
        /// The cycles that it took.
        cycles: u32,
    },
    /// A job is broken.
    Break {
        /// The number of the job.
        job: u16,
    },
    /// An actuator gets its words.
    Out {
        /// The number of the actuator.
        actuator: u16,
        /// The instance of the job that gives them.
        instance: u32,
    },
    /// It falls silent.
    Fell,
    /// The slot that it was sending is cut.
    Cut,
}
