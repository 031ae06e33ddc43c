//! A book of jobs.
ghost use Rattle.std.specs.Prelude.{◌≡◌, ◌<◌, ℕ, length, map, All, IfOk, IfSome, slice_set, slice_index, option_copied};
ghost use Rattle.job_book.specs.Entries.{known_at, known_of, room_of};
ghost use Rattle.job_book.specs.Known.{Waiting as IsWaiting, InHand as IsInHand, Gave as HasGiven, Broke as IsBroken, PassedOver as IsPassedOver, known_in, given_by};

use mars_base::Memory;
use std::alloc::Global;
use std::marker::Model;

// How far a job is.
#[derive(Clone, Copy, Debug, PartialEq, Eq)]
enum Stage {
    Waiting,
    InHand,
    Gave,
    Broke,
    PassedOver,
}

// A job: how far it is, and room for its outputs.
#[derive(Drop)]
struct Entry {
    stage: Stage,
    outs: Vec<i32>,
}

/// What a replica knows of its jobs in a cycle, by their numbers.
#[derive(Drop)]
pub struct JobBook {
    entries: Vec<Entry>,
}

impl Model for JobBook {
    ghost use Rattle.std.specs.Prelude.{map};
    ghost use Rattle.job_book.specs.Known.{Book};
    ghost use Rattle.job_book.specs.Entries.{known_of, room_of};

    ghost Value = { Book };

    ghost view = { λ b. record { rooms = map room_of b.entries.items; jobs = map known_of b.entries.items } };
}

impl JobBook {
    /// A book of jobs that give so many words each, and all wait. No later call takes memory.
    pub fn new(alloc: Global, rooms: &[u16]) -> Result<JobBook, Memory>
        ensures rooms { IfOk result (λ b. b.rooms ≡ rooms.now) }
        ensures count { IfOk result (λ b. length b.jobs ≡ length rooms.now) }
        ensures waiting { IfOk result (λ b. (job : ℕ) → known_in b job ≡ IsWaiting) }
    {
        let mut entries = Vec::new(alloc);
        for room in rooms {
            entries.push(waiting_entry(alloc, *room)?)?;
        }
        Ok(JobBook { entries })
    }

    /// The outputs that a job has given; None where it hasn't ended in this cycle or is broken.
    pub fn given(&self, job: usize) -> Option<&[i32]>
        requires { job < length self.now.jobs }
        ensures given { option_copied result ≡ given_by (known_in self.now job) }
        ensures room { IfSome result (λ outs. length outs.now ≡ slice_index self.now.rooms job) }
    {
        outs_of(&self.entries[job])
    }

    /// A job starts: it is in hand.
    pub fn start(&mut self, job: usize)
        requires { job < length self.old.jobs }
        ensures rooms { self.new.rooms ≡ self.old.rooms }
        ensures jobs { self.new.jobs ≡ slice_set self.old.jobs job IsInHand }
    {
        note(&mut self.entries[job], Stage::InHand);
    }

    /// A job is skipped.
    pub fn skip(&mut self, job: usize)
        requires { job < length self.old.jobs }
        ensures rooms { self.new.rooms ≡ self.old.rooms }
        ensures jobs { self.new.jobs ≡ slice_set self.old.jobs job IsPassedOver }
    {
        note(&mut self.entries[job], Stage::PassedOver);
    }

    /// A job is broken.
    pub fn break_off(&mut self, job: usize)
        requires { job < length self.old.jobs }
        ensures rooms { self.new.rooms ≡ self.old.rooms }
        ensures jobs { self.new.jobs ≡ slice_set self.old.jobs job IsBroken }
    {
        note(&mut self.entries[job], Stage::Broke);
    }

    /// A job ends with these outputs.
    pub fn end(&mut self, job: usize, outs: &[i32])
        requires job { job < length self.old.jobs }
        requires outs { length outs.now ≡ slice_index self.old.rooms job }
        ensures rooms { self.new.rooms ≡ self.old.rooms }
        ensures jobs { self.new.jobs ≡ slice_set self.old.jobs job (HasGiven outs.now) }
    {
        give(&mut self.entries[job], outs);
    }

    /// All jobs wait again, for the next cycle.
    pub fn clear(&mut self)
        ensures rooms { self.new.rooms ≡ self.old.rooms }
        ensures count { length self.new.jobs ≡ length self.old.jobs }
        ensures waiting { (job : ℕ) → known_in self.new job ≡ IsWaiting }
    {
        reset(&mut self.entries);
    }
}

// A job that waits, with room for so many words.
fn waiting_entry(alloc: Global, room: u16) -> Result<Entry, Memory>
    ensures room { IfOk result (λ e. room_of e ≡ room) }
    ensures waiting { IfOk result (λ e. known_of e ≡ IsWaiting) }
{
    Ok(Entry {
        stage: Stage::Waiting,
        outs: vec![in alloc; 0i32; usize::from(room)]?,
    })
}

// The outputs of a job that gave them.
fn outs_of(entry: &Entry) -> Option<&[i32]>
    ensures given { option_copied result ≡ given_by (known_of entry.now) }
    ensures room { IfSome result (λ outs. length outs.now ≡ room_of entry.now) }
{
    match entry.stage {
        Stage::Gave => Some(entry.outs.as_slice()),
        Stage::Waiting | Stage::InHand | Stage::Broke | Stage::PassedOver => None,
    }
}

// A job is now so far.
fn note(entry: &mut Entry, stage: Stage)
    ensures room { room_of entry.new ≡ room_of entry.old }
    ensures known { known_of entry.new ≡ known_at stage entry.old.outs.items }
{
    entry.stage = stage;
}

// A job gives its outputs.
fn give(entry: &mut Entry, outs: &[i32])
    requires { length outs.now ≡ room_of entry.old }
    ensures room { room_of entry.new ≡ room_of entry.old }
    ensures known { known_of entry.new ≡ HasGiven outs.now }
{
    entry.outs.as_mut_slice().copy_from_slice(outs);
    entry.stage = Stage::Gave;
}

// All jobs wait again.
fn reset(entries: &mut Vec<Entry>)
    ensures rooms { map room_of entries.new.items ≡ map room_of entries.old.items }
    ensures waiting { All (λ e. known_of e ≡ IsWaiting) entries.new.items }
{
    for i in 0..entries.len() {
        entries[i].stage = Stage::Waiting;
    }
}
