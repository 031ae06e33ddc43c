//! A job that is placed.
ghost use Rattle.std.specs.Prelude.{◌≡◌, ◌<◌, ◌≤◌, [], ◌∷◌, ◌++◌, length};

use arrayvec::ArrayVec;
use std::marker::Model;

/// A job and the unit on which it is to be placed.
#[derive(Clone, Copy)]
pub struct Choice {
    /// The number of the job.
    pub job: u16,
    /// The unit.
    pub unit: u8,
}

/// Ticks of a unit that a job takes.
#[derive(Clone, Copy)]
pub struct Ticks {
    /// The first tick.
    pub start: u32,
    /// The first tick after them.
    pub end: u32,
}

/// A message over an edge, in a frame.
#[derive(Clone, Copy, Default)]
pub struct Sent {
    /// The number of the edge.
    pub edge: u16,
    /// The unit that sends it.
    pub unit: u8,
    /// The round of the cycle in whose frame it goes.
    pub round: u32,
    /// The word of the frame at which it begins.
    pub offset: u8,
    /// How many words it has.
    pub words: u8,
}

/// A job on a unit, with its ticks and the messages that it gets. Contracts see it as a `Decision`.
#[derive(Drop)]
pub struct Placed {
    job: u16,
    unit: u8,
    start: u32,
    end: u32,
    sent: ArrayVec<Sent, 16>,
}

impl Model for Placed {
    ghost use Rattle.decisions.specs.Decision.{Decision};

    ghost Value = { Decision };

    ghost view = { λ p. record { job = p.job; unit = p.unit; start = p.start; end = p.end; sent = p.sent.items } };
}

impl Placed {
    /// A job on a unit, from `start` up to `end`, with the messages that it gets.
    pub fn new(choice: Choice, start: u32, end: u32, sent: ArrayVec<Sent, 16>) -> Placed
        ensures { result ≡ record { job = choice.job; unit = choice.unit; start = start; end = end; sent = sent.items } }
    {
        Placed {
            job: choice.job,
            unit: choice.unit,
            start,
            end,
            sent,
        }
    }

    /// The number of the job.
    pub fn job(&self) -> u16
        ensures { result ≡ self.now.job }
    {
        self.job
    }

    /// The unit.
    pub fn unit(&self) -> u8
        ensures { result ≡ self.now.unit }
    {
        self.unit
    }

    /// The tick at which it starts.
    pub fn start(&self) -> u32
        ensures { result ≡ self.now.start }
    {
        self.start
    }

    /// The first tick after it.
    pub fn end(&self) -> u32
        ensures { result ≡ self.now.end }
    {
        self.end
    }

    /// The messages that it gets from other units, at most 16.
    pub fn sent(&self) -> &[Sent]
        ensures value { result.now ≡ self.now.sent }
        ensures few { length result.now ≤ 16 }
    {
        self.sent.as_slice()
    }
}
