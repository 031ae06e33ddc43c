//! Decisions, and what is kept beside them.
use decisions::{Placed, Problem};
use tdma::Frames;
use unit_ticks::UnitTicks;

/// The decisions so far, with the places of jobs' and of tasks' first decisions, the words taken in frames and the ticks on
/// units, the jobs by latest start, how many of the first of them are placed, how many jobs start after their latest start,
/// and whether a job has its latest start before its release.
#[derive(Drop)]
pub struct State {
    /// What is to be placed.
    pub problem: Problem,
    /// The decisions.
    pub placed: Vec<Placed>,
    /// The place of each job's decision.
    pub places: Vec<Option<u16>>,
    /// The place of the first decision on each task.
    pub homes: Vec<Option<u16>>,
    /// The words taken in frames.
    pub frames: Frames,
    /// The ticks taken on units.
    pub ticks: UnitTicks,
    /// The jobs by latest start and then by number.
    pub order: Vec<u16>,
    /// The place of each job among them.
    pub ranks: Vec<usize>,
    /// Jobs that stand there before this place are placed.
    pub first: usize,
    /// How many decisions start after their job's latest start.
    pub late: usize,
    /// Whether a job has its latest start before its release.
    pub hopeless: bool,
}
