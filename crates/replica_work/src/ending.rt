//! The fifth part of a tick: the job in hand ends.
ghost use Rattle.std.specs.Prelude.{◌≡◌, ◌≢◌, ◌≤◌, ◌<◌, ◌+◌, ◌++◌, ℕ, List, ℤ, None, Some, length, map, slice_get, slice_index};
ghost use Rattle.processor.specs.Results.{turn_of};
ghost use Rattle.plant.specs.InOrder.{IsInOrder};
ghost use Rattle.plant.specs.Programs.{ProgramsFit};
ghost use Rattle.tables.specs.Named.{entry_at};
ghost use Rattle.job_book.specs.Known.{status_of};
ghost use Rattle.cluster_model.specs.Plan.{listed};
ghost use Rattle.cluster_model.specs.State.{Status};
ghost use Rattle.cluster_model.specs.Tick.{closes};
ghost use Rattle.replica_duties.specs.Duties.{AreDutiesOf};
ghost use Rattle.replica_desk.specs.Desk.{IsDesk, HasStates, state_in_hand};
ghost use Rattle.replica_work.specs.Ends.{ends_at, states_at};
ghost use Rattle.replica_work.specs.Works.{RunsOn, HasRun, limit_before, state_for, task_in, set_plan};

use crate::hand::job_of;
use crate::show::show_end;
use crate::working::work;
use effect_buf::EffectBuf;
use plant::Plant;
use processor::{Cpu, Turn};
use replica_desk::Desk;
use replica_duties::Duties;
use replica_room::words_given;
use tick_parts::close_job;
use timetable::entry_at;

/// Runs the job in hand as far as the tick of the desk's clock allows; where its end is the next tick it ends: its
/// outputs are given and its state is kept, or it is broken, and this is shown. Then the clock is the next tick's.
pub fn finish<C: Cpu>(
    cpu: &mut C,
    plant: &Plant<C::Program>,
    duties: &Duties,
    desk: &mut Desk,
    outs: &mut [i32],
    state: &mut [i32],
    seen: &mut EffectBuf,
)
    requires in_order { IsInOrder plant.now }
    requires fits { ProgramsFit C.ins_of C.outs_of C.states_of plant.now }
    requires duties { AreDutiesOf plant.now.net plant.now.graph plant.now.tables duties.now.unit duties.now.side duties.now }
    requires desk { IsDesk plant.now.net plant.now.graph plant.now.tables duties.now.unit 0 desk.old }
    requires sizes { HasStates plant.now.net plant.now.graph plant.now.tables duties.now.unit plant.now.states desk.old.states }
    requires clock { desk.old.clock < plant.now.graph.cycle }
    requires runs { RunsOn plant.now C.runs desk.old desk.old.clock cpu.old desk.old.hand }
    requires outs { length outs.old ≡ 256 }
    requires state { (task : ℕ) → slice_index plant.now.states task ≤ length state.old }
    requires room { length seen.old ≤ 3 }
    ensures desk { IsDesk plant.now.net plant.now.graph plant.now.tables duties.now.unit 1 desk.new }
    ensures sizes { HasStates plant.now.net plant.now.graph plant.now.tables duties.now.unit plant.now.states desk.new.states }
    ensures runs { RunsOn plant.now C.runs desk.new desk.new.clock cpu.new desk.new.hand }
    ensures clock { desk.new.clock ≡ desk.old.clock + 1 }
    ensures inbox { desk.new.inbox ≡ desk.old.inbox }
    ensures jobs { (given : ℕ → Status) → map (status_of (state_in_hand plant.now.graph desk.old.states desk.old.hand) desk.old.ins) desk.old.book.jobs ≡ listed (length plant.now.graph.jobs) given
        → map (status_of (state_in_hand plant.now.graph desk.new.states desk.new.hand) desk.new.ins) desk.new.book.jobs
        ≡ listed (length plant.now.graph.jobs) (λ k. closes (set_plan C.execution plant.now) desk.old.clock k (given k)) }
    ensures states { (given : ℕ → Status) → map (status_of (state_in_hand plant.now.graph desk.old.states desk.old.hand) desk.old.ins) desk.old.book.jobs ≡ listed (length plant.now.graph.jobs) given
        → desk.new.states ≡ states_at (set_plan C.execution plant.now) desk.old.clock given desk.old.states }
    ensures effects { (given : ℕ → Status) → map (status_of (state_in_hand plant.now.graph desk.old.states desk.old.hand) desk.old.ins) desk.old.book.jobs ≡ listed (length plant.now.graph.jobs) given
        → seen.new ≡ seen.old ++ ends_at (set_plan C.execution plant.now) desk.old.clock given }
{
    if let Some(job) = desk.hand {
        let turn = work(cpu, plant, desk, duties.unit, job);
        after_work(cpu, plant, duties, desk, outs, state, job, turn, seen);
    } else {
        desk.clock += 1;
    }
}

// The tick ends for the job in hand, whose execution stands so.
fn after_work<C: Cpu>(
    cpu: &C,
    plant: &Plant<C::Program>,
    duties: &Duties,
    desk: &mut Desk,
    outs: &mut [i32],
    state: &mut [i32],
    job: u16,
    turn: Turn,
    seen: &mut EffectBuf,
)
    requires in_order { IsInOrder plant.now }
    requires fits { ProgramsFit C.ins_of C.outs_of C.states_of plant.now }
    requires duties { AreDutiesOf plant.now.net plant.now.graph plant.now.tables duties.now.unit duties.now.side duties.now }
    requires desk { IsDesk plant.now.net plant.now.graph plant.now.tables duties.now.unit 0 desk.old }
    requires sizes { HasStates plant.now.net plant.now.graph plant.now.tables duties.now.unit plant.now.states desk.old.states }
    requires clock { desk.old.clock < plant.now.graph.cycle }
    requires hand { desk.old.hand ≡ Some job }
    requires runs { HasRun plant.now C.runs desk.old (desk.old.clock + 1) cpu.now job }
    requires turn { (program : C.Program) → slice_get plant.now.programs (task_in plant.now job) ≡ Some program
        → turn ≡ turn_of (C.execution program (limit_before plant.now job (desk.old.clock + 1)) (state_for plant.now desk.old job) desk.old.ins) }
    requires outs { length outs.old ≡ 256 }
    requires state { (task : ℕ) → slice_index plant.now.states task ≤ length state.old }
    requires room { length seen.old ≤ 3 }
    ensures desk { IsDesk plant.now.net plant.now.graph plant.now.tables duties.now.unit 1 desk.new }
    ensures sizes { HasStates plant.now.net plant.now.graph plant.now.tables duties.now.unit plant.now.states desk.new.states }
    ensures runs { RunsOn plant.now C.runs desk.new desk.new.clock cpu.now desk.new.hand }
    ensures clock { desk.new.clock ≡ desk.old.clock + 1 }
    ensures inbox { desk.new.inbox ≡ desk.old.inbox }
    ensures jobs { (given : ℕ → Status) → map (status_of (state_for plant.now desk.old job) desk.old.ins) desk.old.book.jobs ≡ listed (length plant.now.graph.jobs) given
        → map (status_of (state_in_hand plant.now.graph desk.new.states desk.new.hand) desk.new.ins) desk.new.book.jobs
        ≡ listed (length plant.now.graph.jobs) (λ k. closes (set_plan C.execution plant.now) desk.old.clock k (given k)) }
    ensures states { (given : ℕ → Status) → map (status_of (state_for plant.now desk.old job) desk.old.ins) desk.old.book.jobs ≡ listed (length plant.now.graph.jobs) given
        → desk.new.states ≡ states_at (set_plan C.execution plant.now) desk.old.clock given desk.old.states }
    ensures effects { (given : ℕ → Status) → map (status_of (state_for plant.now desk.old job) desk.old.ins) desk.old.book.jobs ≡ listed (length plant.now.graph.jobs) given
        → seen.new ≡ seen.old ++ ends_at (set_plan C.execution plant.now) desk.old.clock given }
{
    if entry_at(&plant.tables, usize::from(job)).end == desk.clock + 1 {
        end(cpu, plant, duties, desk, outs, state, job, turn, seen);
    } else {
        desk.clock += 1;
    }
}

// The job in hand ends, whose end is the next tick.
fn end<C: Cpu>(
    cpu: &C,
    plant: &Plant<C::Program>,
    duties: &Duties,
    desk: &mut Desk,
    outs: &mut [i32],
    state: &mut [i32],
    job: u16,
    turn: Turn,
    seen: &mut EffectBuf,
)
    requires in_order { IsInOrder plant.now }
    requires fits { ProgramsFit C.ins_of C.outs_of C.states_of plant.now }
    requires duties { AreDutiesOf plant.now.net plant.now.graph plant.now.tables duties.now.unit duties.now.side duties.now }
    requires desk { IsDesk plant.now.net plant.now.graph plant.now.tables duties.now.unit 0 desk.old }
    requires sizes { HasStates plant.now.net plant.now.graph plant.now.tables duties.now.unit plant.now.states desk.old.states }
    requires clock { desk.old.clock < plant.now.graph.cycle }
    requires hand { desk.old.hand ≡ Some job }
    requires end { (entry_at plant.now.tables job).end ≡ desk.old.clock + 1 }
    requires runs { HasRun plant.now C.runs desk.old (desk.old.clock + 1) cpu.now job }
    requires turn { (program : C.Program) → slice_get plant.now.programs (task_in plant.now job) ≡ Some program
        → turn ≡ turn_of (C.execution program (limit_before plant.now job (desk.old.clock + 1)) (state_for plant.now desk.old job) desk.old.ins) }
    requires outs { length outs.old ≡ 256 }
    requires state { (task : ℕ) → slice_index plant.now.states task ≤ length state.old }
    requires room { length seen.old ≤ 3 }
    ensures desk { IsDesk plant.now.net plant.now.graph plant.now.tables duties.now.unit 1 desk.new }
    ensures sizes { HasStates plant.now.net plant.now.graph plant.now.tables duties.now.unit plant.now.states desk.new.states }
    ensures hand { desk.new.hand ≡ None }
    ensures clock { desk.new.clock ≡ desk.old.clock + 1 }
    ensures inbox { desk.new.inbox ≡ desk.old.inbox }
    ensures jobs { (given : ℕ → Status) → map (status_of (state_for plant.now desk.old job) desk.old.ins) desk.old.book.jobs ≡ listed (length plant.now.graph.jobs) given
        → (state ins : List ℤ) → map (status_of state ins) desk.new.book.jobs
        ≡ listed (length plant.now.graph.jobs) (λ k. closes (set_plan C.execution plant.now) desk.old.clock k (given k)) }
    ensures states { (given : ℕ → Status) → map (status_of (state_for plant.now desk.old job) desk.old.ins) desk.old.book.jobs ≡ listed (length plant.now.graph.jobs) given
        → desk.new.states ≡ states_at (set_plan C.execution plant.now) desk.old.clock given desk.old.states }
    ensures effects { (given : ℕ → Status) → map (status_of (state_for plant.now desk.old job) desk.old.ins) desk.old.book.jobs ≡ listed (length plant.now.graph.jobs) given
        → seen.new ≡ seen.old ++ ends_at (set_plan C.execution plant.now) desk.old.clock given }
{
    let task = job_of(&plant.graph, job).task;
    let gives = usize::from(words_given(&plant.net, task));
    let keeps = usize::from(plant.state_words(task));
    close_job(
        cpu,
        plant,
        turn,
        job,
        &mut desk.book,
        &mut desk.states,
        &mut outs[..gives],
        &mut state[..keeps],
    );
    desk.hand = None;
    desk.clock += 1;
    show_end(
        &duties.outputs,
        &plant.net,
        &plant.graph,
        job,
        turn,
        cpu.cycles(),
        seen,
    );
}
