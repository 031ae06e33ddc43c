//! The fifth part of a tick: the job in hand ends.
ghost use Rattle.std.specs.Prelude.{◌≡◌, ◌≢◌, ◌<◌, ◌≤◌, ℕ, suc, List, [], ℤ, Some, length, map, get_or, slice_get, slice_index, sum};
ghost use Rattle.processor.specs.Ends.{end_under};
ghost use Rattle.processor.specs.Results.{turn_of};
ghost use Rattle.graph.specs.Net.{outs_of};
ghost use Rattle.tables.specs.Named.{job_at, entry_at};
ghost use Rattle.net_run.specs.NetRun.{Execution};
ghost use Rattle.plant.specs.InOrder.{IsInOrder};
ghost use Rattle.plant.specs.Programs.{ProgramsFit};
ghost use Rattle.job_book.specs.Known.{InHand, known_in, status_of};
ghost use Rattle.carried_words.specs.Says.{IsBookOf};
ghost use Rattle.cluster_model.specs.Plan.{Plan, listed};
ghost use Rattle.cluster_model.specs.PlanOf.{plan_of};
ghost use Rattle.cluster_model.specs.State.{Status};
ghost use Rattle.cluster_model.specs.Tick.{closes, state_after};

use job_book::JobBook;
use plant::Plant;
use processor::{Cpu, Turn};
use replica_job::end_job;
use task_words::TaskStates;

/// Ends the job in hand, whose end is the next tick and whose execution stands so: its outputs are given and its
/// state is kept, or it is broken. No other job is in hand. `outs` has as many words as the job gives, and `state`
/// as many as its state has; what stands there is lost.
pub fn close_job<C: Cpu>(
    cpu: &C,
    plant: &Plant<C::Program>,
    turn: Turn,
    job: u16,
    book: &mut JobBook,
    states: &mut TaskStates,
    outs: &mut [i32],
    state: &mut [i32],
)
    requires in_order { IsInOrder plant.now }
    requires fits { ProgramsFit C.ins_of C.outs_of C.states_of plant.now }
    requires job { job < length plant.now.graph.jobs }
    requires book { IsBookOf plant.now.net plant.now.graph book.old }
    requires states { length states.old ≡ length plant.now.net.tasks }
    requires room { length (get_or states.old (job_at plant.now.graph job).task []) ≡ slice_index plant.now.states (job_at plant.now.graph job).task }
    requires outs { length outs.old ≡ sum (outs_of plant.now.net (job_at plant.now.graph job).task) }
    requires state { length state.old ≡ slice_index plant.now.states (job_at plant.now.graph job).task }
    requires in_hand { known_in book.old job ≡ InHand }
    requires only { (k : ℕ) → known_in book.old k ≡ InHand → k ≡ job }
    requires hand { (program : C.Program) → slice_get plant.now.programs (job_at plant.now.graph job).task ≡ Some program
        → (ins : List ℤ) × (m : ℕ) × C.runs cpu.now program (get_or states.old (job_at plant.now.graph job).task []) ins m
        × (turn ≡ turn_of (C.execution program m (get_or states.old (job_at plant.now.graph job).task []) ins)) }
    ensures jobs { (words : List ℕ) (exec : Execution) (cost : ℕ → List ℤ → List ℤ → ℕ) (tick : ℕ) (statuses : ℕ → Status) (program : C.Program) (ins : List ℤ) (m : ℕ)
        → (entry_at plant.now.tables job).end ≡ suc tick
        → slice_get plant.now.programs (job_at plant.now.graph job).task ≡ Some program
        → C.runs cpu.now program (get_or states.old (job_at plant.now.graph job).task []) ins m
        → turn ≡ turn_of (C.execution program m (get_or states.old (job_at plant.now.graph job).task []) ins)
        → exec (job_at plant.now.graph job).task (get_or states.old (job_at plant.now.graph job).task []) ins
        ≡ end_under (C.execution program m (get_or states.old (job_at plant.now.graph job).task []) ins)
        → map (status_of (get_or states.old (job_at plant.now.graph job).task []) ins) book.old.jobs ≡ listed (length plant.now.graph.jobs) statuses
        → (s i : List ℤ) → map (status_of s i) book.new.jobs
        ≡ listed (length plant.now.graph.jobs) (λ k. closes (plan_of plant.now.net plant.now.graph plant.now.tables words exec cost) tick k (statuses k)) }
    ensures states { (words : List ℕ) (exec : Execution) (cost : ℕ → List ℤ → List ℤ → ℕ) (tick : ℕ) (statuses : ℕ → Status) (program : C.Program) (ins : List ℤ) (m : ℕ)
        → (entry_at plant.now.tables job).end ≡ suc tick
        → slice_get plant.now.programs (job_at plant.now.graph job).task ≡ Some program
        → C.runs cpu.now program (get_or states.old (job_at plant.now.graph job).task []) ins m
        → turn ≡ turn_of (C.execution program m (get_or states.old (job_at plant.now.graph job).task []) ins)
        → exec (job_at plant.now.graph job).task (get_or states.old (job_at plant.now.graph job).task []) ins
        ≡ end_under (C.execution program m (get_or states.old (job_at plant.now.graph job).task []) ins)
        → map (status_of (get_or states.old (job_at plant.now.graph job).task []) ins) book.old.jobs ≡ listed (length plant.now.graph.jobs) statuses
        → states.new ≡ listed (length plant.now.net.tasks) (λ task. state_after (plan_of plant.now.net plant.now.graph plant.now.tables words exec cost) tick statuses task (get_or states.old task [])
        ((plan_of plant.now.net plant.now.graph plant.now.tables words exec cost).instances task)) }
    ensures book { IsBookOf plant.now.net plant.now.graph book.new }
    ensures free { (k : ℕ) → known_in book.new k ≢ InHand }
    ensures sizes { (other : ℕ) → length (get_or states.new other []) ≡ length (get_or states.old other []) }
{
    let task = plant.graph.job(job).task;
    end_job(
        cpu,
        plant.program(task),
        turn,
        book,
        usize::from(job),
        states,
        usize::from(task),
        outs,
        state,
    );
}
