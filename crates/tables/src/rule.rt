//! The rules of valid tables, by name.

/// A rule of valid tables. They are looked at in this order, and each is stated under those before it.
#[derive(Clone, Copy, Debug, PartialEq, Eq)]
pub enum TableRule {
    /// There is an entry for each job, and entry i is that of job i.
    Jobs,
    /// A job's unit is allowed to its task, and is the same for all jobs of the task.
    Units,
    /// A job's ticks are as many as its length.
    Lengths,
    /// Two jobs of one unit never run at one tick.
    Ticks,
    /// No job starts before its release.
    Releases,
    /// Each job ends by its deadline.
    Deadlines,
    /// Each job gets its inputs in time, over the bus exactly where its producer is on another unit.
    Inputs,
    /// Each message fits its frame, and two messages of one frame share no word.
    Frames,
}

impl TableRule {
    ghost use Rattle.std.specs.Prelude.{◌≡◌};
    ghost use Rattle.tables.specs.Number.{number_of};

    /// The number of the rule, 1 to 8.
    pub fn number(self) -> u8
        ensures { result ≡ number_of self }
    {
        match self {
            TableRule::Jobs => 1,
            TableRule::Units => 2,
            TableRule::Lengths => 3,
            TableRule::Ticks => 4,
            TableRule::Releases => 5,
            TableRule::Deadlines => 6,
            TableRule::Inputs => 7,
            TableRule::Frames => 8,
        }
    }
}
