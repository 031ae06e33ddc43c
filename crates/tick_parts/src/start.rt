//! The third part of a tick: the job that starts.
ghost use Rattle.std.specs.Prelude.{◌≡◌, ◌≢◌, ◌≤◌, ◌<◌, ◌+◌, ◌++◌, ℕ, List, ℤ, None, Some, IfSome, length, map, slice_set, sum};
ghost use Rattle.graph.specs.Cycle.{sensor_words};
ghost use Rattle.graph.specs.Net.{ins_of};
ghost use Rattle.graph.specs.NetGraph.{IsNetGraph};
ghost use Rattle.tables.specs.Named.{job_at};
ghost use Rattle.tables.specs.Valid.{AreValid};
ghost use Rattle.timetable.specs.Keys.{starts_in, feeds_in};
ghost use Rattle.net_run.specs.NetRun.{Execution};
ghost use Rattle.job_book.specs.Known.{InHand, known_in, status_of};
ghost use Rattle.carried_words.specs.Says.{IsBookOf};
ghost use Rattle.job_inputs.specs.Look.{AreStarts, IsInboxOf};
ghost use Rattle.cluster_model.specs.Plan.{Plan, listed};
ghost use Rattle.cluster_model.specs.PlanOf.{plan_of};
ghost use Rattle.cluster_model.specs.State.{Held, Bus};
ghost use Rattle.cluster_model.specs.Tick.{took, opens};
ghost use Rattle.cluster_model.specs.Effects.{start_effects};
ghost use Rattle.tick_parts.specs.Opens.{StartsAt, Opened};
ghost use Rattle.tick_parts.specs.Tells.{Tells};

use agenda::Schedule;
use cluster_model::Effect;
use effect_buf::EffectBuf;
use graph::{Graph, Net};
use job_book::JobBook;
use job_inputs::gather;
use replica_parts::Inbox;
use tables::Tables;
use task_words::InWords;

/// Starts the unit's job whose start is this tick, with its inputs in `ins`, or skips it where an input is lacking,
/// and shows it. Answers the job that starts; no job may be in hand there.
pub fn open_job(
    net: &Net,
    graph: &Graph,
    tables: &Tables,
    starts: &Schedule,
    feeds: &Schedule,
    sensors: &[u32],
    unit: u8,
    tick: u32,
    line: &[i32],
    inbox: &Inbox,
    book: &mut JobBook,
    ins: &mut InWords,
    seen: &mut EffectBuf,
) -> Option<u16>
    requires net { IsNetGraph net.now graph.now }
    requires valid { AreValid net.now graph.now tables.now }
    requires starts { starts.now ≡ starts_in graph.now tables.now unit }
    requires feeds { feeds.now ≡ feeds_in net.now graph.now tables.now }
    requires sensors { AreStarts net.now graph.now.cycle sensors.now }
    requires tick { tick < graph.now.cycle }
    requires line { length line.now ≡ sensor_words net.now graph.now.cycle }
    requires inbox { IsInboxOf net.now tables.now inbox.now }
    requires book { IsBookOf net.now graph.now book.old }
    requires free { (job k : ℕ) → job < length graph.now.jobs → StartsAt tables.now unit tick job → known_in book.old k ≢ InHand }
    requires room { length seen.old < 1028 }
    ensures book { IsBookOf net.now graph.now book.new }
    ensures starts { IfSome result (StartsAt tables.now unit tick) }
    ensures known { IfSome result (λ job. job < length graph.now.jobs) }
    ensures count { IfSome result (λ job. length ins.new ≡ sum (ins_of net.now (job_at graph.now job).task)) }
    ensures jobs { (words : List ℕ) (exec : Execution) (cost : ℕ → List ℤ → List ℤ → ℕ) (bus : Bus) (h : Held) (state before : List ℤ) → h.clock ≡ tick → Tells book.old h
        → inbox.now.words ≡ listed (length tables.now.messages) (took (plan_of net.now graph.now tables.now words exec cost) bus unit h)
        → h.jobs ≡ map (status_of state before) book.old.jobs
        → Opened (plan_of net.now graph.now tables.now words exec cost) bus unit line.now h state before ins.new book.new result }
    ensures effects { (words : List ℕ) (exec : Execution) (cost : ℕ → List ℤ → List ℤ → ℕ) (bus : Bus) (h : Held) → h.clock ≡ tick → Tells book.old h
        → inbox.now.words ≡ listed (length tables.now.messages) (took (plan_of net.now graph.now tables.now words exec cost) bus unit h)
        → seen.new ≡ seen.old ++ start_effects (plan_of net.now graph.now tables.now words exec cost) bus line.now unit h }
    ensures few { length seen.new ≤ length seen.old + 1 }
    ensures in_hand { IfSome result (λ job. book.new.jobs ≡ slice_set book.old.jobs job InHand) }
    ensures no_more { result ≡ None → (k : ℕ) → known_in book.new k ≡ InHand → known_in book.old k ≡ InHand }
    ensures keeps { (k : ℕ) → known_in book.old k ≡ InHand → known_in book.new k ≡ InHand }
    ensures still { ((job : ℕ) → job < length graph.now.jobs → StartsAt tables.now unit tick job → ⊥) → ins.new ≡ ins.old }
{
    let Some(first) = starts.first(tick as usize) else {
        return None;
    };
    let job = first as u16;
    if gather(
        net, graph, tables, feeds, sensors, unit, book, inbox, line, job, ins,
    ) {
        book.start(usize::from(job));
        seen.push(Effect::Start { job });
        Some(job)
    } else {
        book.skip(usize::from(job));
        seen.push(Effect::Skip { job });
        None
    }
}
