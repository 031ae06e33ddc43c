//! The fourth part of a tick: the job in hand runs.
ghost use Rattle.std.specs.Prelude.{◌≡◌, ◌≤◌, ◌<◌, ◌+◌, ◌^◌, ℕ, Some, length, slice_get};
ghost use Rattle.processor.specs.Results.{turn_of};
ghost use Rattle.plant.specs.InOrder.{IsInOrder};
ghost use Rattle.plant.specs.Programs.{ProgramsFit};
ghost use Rattle.tables.specs.Named.{entry_at};
ghost use Rattle.replica_desk.specs.Desk.{IsInHand, HasStates};
ghost use Rattle.replica_work.specs.Works.{HasRun, RunsOn, limit_before, state_for, task_in, cycles_of};

use crate::hand::job_of;
use plant::Plant;
use processor::{Cpu, Turn};
use replica_desk::Desk;
use replica_job::{limit_after, run_to};
use timetable::entry_at;

/// Runs the job in hand as far as the tick of the desk's clock allows, from its begin where it starts at this tick, and
/// tells how its execution stands.
pub fn work<C: Cpu>(cpu: &mut C, plant: &Plant<C::Program>, desk: &Desk, unit: u8, job: u16) -> Turn
    requires in_order { IsInOrder plant.now }
    requires fits { ProgramsFit C.ins_of C.outs_of C.states_of plant.now }
    requires hand { IsInHand plant.now.net plant.now.graph plant.now.tables unit 0 desk.now job }
    requires sizes { HasStates plant.now.net plant.now.graph plant.now.tables unit plant.now.states desk.now.states }
    requires states { length desk.now.states ≡ length plant.now.net.tasks }
    requires clock { desk.now.clock < plant.now.graph.cycle }
    requires runs { RunsOn plant.now C.runs desk.now desk.now.clock cpu.old (Some job) }
    ensures runs { HasRun plant.now C.runs desk.now (desk.now.clock + 1) cpu.new job }
    ensures turn { (program : C.Program) → slice_get plant.now.programs (task_in plant.now job) ≡ Some program
        → result ≡ turn_of (C.execution program (limit_before plant.now job (desk.now.clock + 1)) (state_for plant.now desk.now job) desk.now.ins) }
{
    begin(cpu, plant, desk, unit, job);
    go_on(cpu, plant, desk, unit, job)
}

// The processor is loaded where the job starts at this tick.
fn begin<C: Cpu>(cpu: &mut C, plant: &Plant<C::Program>, desk: &Desk, unit: u8, job: u16)
    requires in_order { IsInOrder plant.now }
    requires fits { ProgramsFit C.ins_of C.outs_of C.states_of plant.now }
    requires hand { IsInHand plant.now.net plant.now.graph plant.now.tables unit 0 desk.now job }
    requires sizes { HasStates plant.now.net plant.now.graph plant.now.tables unit plant.now.states desk.now.states }
    requires states { length desk.now.states ≡ length plant.now.net.tasks }
    requires runs { RunsOn plant.now C.runs desk.now desk.now.clock cpu.old (Some job) }
    ensures { HasRun plant.now C.runs desk.now desk.now.clock cpu.new job }
{
    if entry_at(&plant.tables, usize::from(job)).start == desk.clock {
        load(cpu, plant, desk, unit, job);
    }
}

// The processor is loaded with the program of the job, the state of its task and its inputs.
fn load<C: Cpu>(cpu: &mut C, plant: &Plant<C::Program>, desk: &Desk, unit: u8, job: u16)
    requires in_order { IsInOrder plant.now }
    requires fits { ProgramsFit C.ins_of C.outs_of C.states_of plant.now }
    requires hand { IsInHand plant.now.net plant.now.graph plant.now.tables unit 0 desk.now job }
    requires sizes { HasStates plant.now.net plant.now.graph plant.now.tables unit plant.now.states desk.now.states }
    requires states { length desk.now.states ≡ length plant.now.net.tasks }
    ensures { (program : C.Program) → slice_get plant.now.programs (task_in plant.now job) ≡ Some program
        → C.runs cpu.new program (state_for plant.now desk.now job) desk.now.ins 0 }
{
    let task = job_of(&plant.graph, job).task;
    let program = plant.program(task);
    cpu.load(
        program,
        desk.states.get(usize::from(task)),
        desk.ins.words(),
    );
}

// The job runs as far as its ticks with this one allow.
fn go_on<C: Cpu>(cpu: &mut C, plant: &Plant<C::Program>, desk: &Desk, unit: u8, job: u16) -> Turn
    requires in_order { IsInOrder plant.now }
    requires hand { IsInHand plant.now.net plant.now.graph plant.now.tables unit 0 desk.now job }
    requires clock { desk.now.clock < plant.now.graph.cycle }
    requires runs { HasRun plant.now C.runs desk.now desk.now.clock cpu.old job }
    ensures runs { HasRun plant.now C.runs desk.now (desk.now.clock + 1) cpu.new job }
    ensures turn { (program : C.Program) → slice_get plant.now.programs (task_in plant.now job) ≡ Some program
        → result ≡ turn_of (C.execution program (limit_before plant.now job (desk.now.clock + 1)) (state_for plant.now desk.now job) desk.now.ins) }
{
    let limit = limit_at(plant, desk.clock, job);
    run_to(cpu, plant.program(job_of(&plant.graph, job).task), limit)
}

// The cycles that a job may have taken after a tick.
fn limit_at<P>(plant: &Plant<P>, tick: u32, job: u16) -> u32
    requires in_order { IsInOrder plant.now }
    requires job { job < length plant.now.graph.jobs }
    requires start { (entry_at plant.now.tables job).start ≤ tick }
    requires tick { tick < plant.now.graph.cycle }
    ensures limit { result ≡ limit_before plant.now job (tick + 1) }
    ensures short { result < 2 ^ 31 }
    ensures more { limit_before plant.now job tick ≤ result }
{
    let ticks = tick + 1 - entry_at(&plant.tables, usize::from(job)).start;
    let maxt = plant.maxt(job_of(&plant.graph, job).task);
    limit_after(maxt, ticks, plant.net.shape.cycles_per_tick)
}

/// The cycles of the longest part of a job's execution that its ticks so far and its greatest number of cycles allow.
pub fn cycles_so_far<C: Cpu>(cpu: &C, plant: &Plant<C::Program>, desk: &Desk, job: u16) -> u32
    requires in_order { IsInOrder plant.now }
    requires job { job < length plant.now.graph.jobs }
    requires runs { HasRun plant.now C.runs desk.now desk.now.clock cpu.now job }
    ensures { result ≡ cycles_of plant.now C.execution desk.now (Some job) }
{
    cpu.cycles()
}
