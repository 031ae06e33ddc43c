//! The first three parts of a tick.
ghost use Rattle.std.specs.Prelude.{◌≡◌, ◌≤◌, ◌<◌, ◌+◌, ◌++◌, ℕ, List, ℤ, Some, length, map};
ghost use Rattle.mars_base.specs.declared.shape.Side.{Side};
ghost use Rattle.graph.specs.Cycle.{sensor_words};
ghost use Rattle.graph.specs.NetGraph.{IsNetGraph};
ghost use Rattle.tables.specs.Named.{entry_at};
ghost use Rattle.tables.specs.Valid.{AreValid, bus_of};
ghost use Rattle.net_run.specs.NetRun.{Execution};
ghost use Rattle.job_book.specs.Known.{status_of};
ghost use Rattle.cluster_model.specs.Plan.{Plan, listed};
ghost use Rattle.cluster_model.specs.PlanOf.{plan_of};
ghost use Rattle.cluster_model.specs.Tick.{took, opens, slots_after};
ghost use Rattle.cluster_model.specs.Effects.{take_effects, put_effects, start_effects};
ghost use Rattle.tick_parts.specs.OnBus.{IsBusOf, StandsAtOwn, bus_on, slots_on};
ghost use Rattle.replica_duties.specs.Duties.{AreDutiesOf};
ghost use Rattle.replica_desk.specs.Desk.{IsDesk, held_in, state_in_hand};

use crate::Desk;
use bus::Bus;
use effect_buf::EffectBuf;
use graph::{Graph, Net};
use replica_duties::Duties;
use tables::Tables;
use tick_parts::{open_job, put_word, take_frames};

/// Takes the frames that may be used from the tick of its clock on, puts the word of its own slot, and starts or skips
/// the job of this tick.
pub fn begin(
    net: &Net,
    graph: &Graph,
    tables: &Tables,
    duties: &Duties,
    desk: &mut Desk,
    bus: &mut Bus,
    line: &[i32],
    seen: &mut EffectBuf,
)
    requires net { IsNetGraph net.now graph.now }
    requires valid { AreValid net.now graph.now tables.now }
    requires duties { AreDutiesOf net.now graph.now tables.now duties.now.unit duties.now.side duties.now }
    requires desk { IsDesk net.now graph.now tables.now duties.now.unit 1 desk.old }
    requires clock { desk.old.clock < graph.now.cycle }
    requires bus { IsBusOf (bus_of net.now graph.now) bus.old }
    requires stands { StandsAtOwn bus.old duties.now.unit duties.now.side desk.old.clock }
    requires line { length line.now ≡ sensor_words net.now graph.now.cycle }
    requires room { length seen.old + 3 ≤ 1028 }
    ensures desk { IsDesk net.now graph.now tables.now duties.now.unit 0 desk.new }
    ensures clock { desk.new.clock ≡ desk.old.clock }
    ensures states { desk.new.states ≡ desk.old.states }
    ensures goes_on { (job : ℕ) → desk.new.hand ≡ Some job → (entry_at tables.now job).start < desk.old.clock → (desk.old.hand ≡ Some job) × (desk.new.ins ≡ desk.old.ins) }
    ensures bus { IsBusOf (bus_of net.now graph.now) bus.new }
    ensures taken { (words : List ℕ) (exec : Execution) (cost : ℕ → List ℤ → List ℤ → ℕ)
        → desk.new.inbox.words ≡ listed (length tables.now.messages) (took (plan_of net.now graph.now tables.now words exec cost) (bus_on bus.old) duties.now.unit (held_in graph.now desk.old)) }
    ensures own { (words : List ℕ) (exec : Execution) (cost : ℕ → List ℤ → List ℤ → ℕ)
        → slots_on bus.new duties.now.unit duties.now.side
        ≡ slots_after (plan_of net.now graph.now tables.now words exec cost) duties.now.unit duties.now.side (held_in graph.now desk.old) (slots_on bus.old duties.now.unit duties.now.side) }
    ensures others { (u : ℕ) (x : Side) → u < net.now.shape.units → (u ≡ duties.now.unit → x ≡ duties.now.side → ⊥) → slots_on bus.new u x ≡ slots_on bus.old u x }
    ensures jobs { (words : List ℕ) (exec : Execution) (cost : ℕ → List ℤ → List ℤ → ℕ)
        → map (status_of (state_in_hand graph.now desk.new.states desk.new.hand) desk.new.ins) desk.new.book.jobs
        ≡ listed (length graph.now.jobs) (opens (plan_of net.now graph.now tables.now words exec cost) (bus_on bus.old) duties.now.unit (held_in graph.now desk.old) line.now) }
    ensures effects { (words : List ℕ) (exec : Execution) (cost : ℕ → List ℤ → List ℤ → ℕ)
        → seen.new ≡ ((seen.old ++ take_effects (plan_of net.now graph.now tables.now words exec cost) (bus_on bus.old) duties.now.unit desk.old.clock)
        ++ put_effects (plan_of net.now graph.now tables.now words exec cost) duties.now.unit duties.now.side (held_in graph.now desk.old))
        ++ start_effects (plan_of net.now graph.now tables.now words exec cost) (bus_on bus.old) line.now duties.now.unit (held_in graph.now desk.old) }
    ensures few { length seen.new ≤ length seen.old + 3 }
{
    let unit = duties.unit;
    let tick = desk.clock;
    take_frames(
        net,
        graph,
        tables,
        &duties.arrivals,
        bus,
        unit,
        tick,
        &mut desk.inbox,
        seen,
    );
    put_word(
        net,
        graph,
        tables,
        &duties.sendings,
        &duties.round,
        &desk.book,
        unit,
        duties.side,
        tick,
        bus,
        seen,
    );
    let started = open_job(
        net,
        graph,
        tables,
        &duties.starts,
        &duties.feeds,
        duties.sensors.as_slice(),
        unit,
        tick,
        line,
        &desk.inbox,
        &mut desk.book,
        &mut desk.ins,
        seen,
    );
    if let Some(job) = started {
        desk.hand = Some(job);
    }
}
