//! The end of a job.
ghost use Rattle.std.specs.Prelude.{◌≡◌, ◌<◌, ◌≤◌, ◌^◌, ℕ, ℤ, List, [], length, get_or, slice_index, slice_set};
ghost use Rattle.processor.specs.Results.{outs_in, state_in, turn_of};
ghost use Rattle.processor.specs.declared.cpu.Turn.TheVariants as turn_;
ghost use Rattle.net_run.specs.NetRun.{kept};
ghost use Rattle.job_book.specs.Known.{Gave};
ghost use Rattle.replica_job.specs.Hand.{result_in, known_as};

use job_book::JobBook;
use processor::{Cpu, Turn};
use task_words::TaskStates;

// The outputs of a job that halted are put into the book, by way of as many words.
fn give<C: Cpu>(cpu: &C, program: &C::Program, book: &mut JobBook, job: usize, words: &mut [i32])
    requires job { job < length book.old.jobs }
    requires room { slice_index book.old.rooms job ≡ C.outs_of program.now }
    requires words { length words.old ≡ C.outs_of program.now }
    requires halted { (state ins : List ℤ) × (m : ℕ) × C.runs cpu.now program.now state ins m
        × (turn_of (C.execution program.now m state ins) ≡ turn_.Halted) }
    ensures rooms { book.new.rooms ≡ book.old.rooms }
    ensures jobs { (state ins : List ℤ) (m : ℕ) → C.runs cpu.now program.now state ins m
        → book.new.jobs ≡ slice_set book.old.jobs job (Gave (outs_in (C.execution program.now m state ins))) }
{
    cpu.outs(program, words);
    book.end(job, words);
}

// The state that a job leaves which halted is kept, by way of as many words.
fn keep<C: Cpu>(
    cpu: &C,
    program: &C::Program,
    states: &mut TaskStates,
    task: usize,
    words: &mut [i32],
)
    requires task { task < length states.old }
    requires room { length (get_or states.old task []) ≡ C.states_of program.now }
    requires words { length words.old ≡ C.states_of program.now }
    requires halted { (state ins : List ℤ) × (m : ℕ) × C.runs cpu.now program.now state ins m
        × (turn_of (C.execution program.now m state ins) ≡ turn_.Halted) }
    ensures states { (state ins : List ℤ) (m : ℕ) → C.runs cpu.now program.now state ins m
        → states.new ≡ slice_set states.old task (state_in (C.execution program.now m state ins)) }
    ensures sizes { (other : ℕ) → length (get_or states.new other []) ≡ length (get_or states.old other []) }
{
    cpu.state(program, words);
    states.set(task, words);
}

/// Ends a job of a task: where its execution halted under its limit, its outputs are given and its state is kept;
/// else it is broken, and its state stays. `outs` has as many words as the program gives and `state` as many as
/// it leaves; what stands there is lost.
pub fn end_job<C: Cpu>(
    cpu: &C,
    program: &C::Program,
    turn: Turn,
    book: &mut JobBook,
    job: usize,
    states: &mut TaskStates,
    task: usize,
    outs: &mut [i32],
    state: &mut [i32],
)
    requires job { job < length book.old.jobs }
    requires outs_room { slice_index book.old.rooms job ≡ C.outs_of program.now }
    requires task { task < length states.old }
    requires state_room { length (get_or states.old task []) ≡ C.states_of program.now }
    requires outs { length outs.old ≡ C.outs_of program.now }
    requires state { length state.old ≡ C.states_of program.now }
    requires hand { (ins : List ℤ) × (m : ℕ) × C.runs cpu.now program.now (get_or states.old task []) ins m
        × (turn ≡ turn_of (C.execution program.now m (get_or states.old task []) ins)) }
    ensures rooms { book.new.rooms ≡ book.old.rooms }
    ensures jobs { (ins : List ℤ) (m : ℕ) → C.runs cpu.now program.now (get_or states.old task []) ins m
        → turn ≡ turn_of (C.execution program.now m (get_or states.old task []) ins)
        → book.new.jobs ≡ slice_set book.old.jobs job (known_as (result_in (C.execution program.now m (get_or states.old task []) ins))) }
    ensures states { (ins : List ℤ) (m : ℕ) → C.runs cpu.now program.now (get_or states.old task []) ins m
        → turn ≡ turn_of (C.execution program.now m (get_or states.old task []) ins)
        → states.new ≡ slice_set states.old task (kept (get_or states.old task []) (result_in (C.execution program.now m (get_or states.old task []) ins))) }
    ensures sizes { (other : ℕ) → length (get_or states.new other []) ≡ length (get_or states.old other []) }
{
    match turn {
        Turn::Halted => {
            give(cpu, program, book, job, outs);
            keep(cpu, program, states, task, state);
        }
        Turn::Broken | Turn::Short => book.break_off(job),
    }
}
