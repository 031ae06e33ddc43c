//! The second part of a tick: the word of the replica's own slot.
ghost use Rattle.std.specs.Prelude.{◌≡◌, ◌≤◌, ◌<◌, ◌+◌, ◌++◌, ℕ, List, ℤ, length};
ghost use Rattle.mars_base.specs.declared.shape.Side.{Side};
ghost use Rattle.graph.specs.NetGraph.{IsNetGraph};
ghost use Rattle.tables.specs.Valid.{AreValid, bus_of};
ghost use Rattle.tdma.specs.Layout.{cycle_ticks};
ghost use Rattle.timetable.specs.Keys.{sendings_in};
ghost use Rattle.net_run.specs.NetRun.{Execution};
ghost use Rattle.carried_words.specs.Says.{IsBookOf};
ghost use Rattle.cluster_model.specs.PlanOf.{plan_of};
ghost use Rattle.cluster_model.specs.State.{Held};
ghost use Rattle.cluster_model.specs.Tick.{slots_after};
ghost use Rattle.cluster_model.specs.Effects.{put_effects};
ghost use Rattle.tick_parts.specs.OnBus.{IsBusOf, slots_on, OwnPlace, StandsAtOwn};
ghost use Rattle.tick_parts.specs.Tells.{Tells};

use agenda::Schedule;
use bus::Bus;
use carried_words::frame_word;
use cluster_model::Effect;
use effect_buf::EffectBuf;
use graph::{Graph, Net};
use job_book::JobBook;
use mars_base::Side;
use tables::Tables;
use tdma::{Round, SlotPlace};

/// Puts one word into the slot of this tick where it is one of the replica's own, and shows it.
pub fn put_word(
    net: &Net,
    graph: &Graph,
    tables: &Tables,
    sendings: &Schedule,
    round: &Round,
    book: &JobBook,
    unit: u8,
    side: Side,
    tick: u32,
    bus: &mut Bus,
    seen: &mut EffectBuf,
)
    requires net { IsNetGraph net.now graph.now }
    requires valid { AreValid net.now graph.now tables.now }
    requires sendings { sendings.now ≡ sendings_in net.now graph.now tables.now unit }
    requires round { round.now ≡ bus_of net.now graph.now }
    requires bus { IsBusOf (bus_of net.now graph.now) bus.old }
    requires book { IsBookOf net.now graph.now book.now }
    requires unit { unit < net.now.shape.units }
    requires tick { tick < graph.now.cycle }
    requires stands { StandsAtOwn bus.old unit side tick }
    requires room { length seen.old < 1028 }
    ensures bus { IsBusOf (bus_of net.now graph.now) bus.new }
    ensures own { (words : List ℕ) (exec : Execution) (cost : ℕ → List ℤ → List ℤ → ℕ) (h : Held) → h.clock ≡ tick → Tells book.now h
        → slots_on bus.new unit side ≡ slots_after (plan_of net.now graph.now tables.now words exec cost) unit side h (slots_on bus.old unit side) }
    ensures others { (u : ℕ) (x : Side) → u < net.now.shape.units → (u ≡ unit → x ≡ side → ⊥) → slots_on bus.new u x ≡ slots_on bus.old u x }
    ensures effects { (words : List ℕ) (exec : Execution) (cost : ℕ → List ℤ → List ℤ → ℕ) (h : Held) → h.clock ≡ tick → Tells book.now h
        → seen.new ≡ seen.old ++ put_effects (plan_of net.now graph.now tables.now words exec cost) unit side h }
    ensures few { length seen.new ≤ length seen.old + 1 }
{
    let Some(place) = own_place(round, unit, side, tick) else {
        return;
    };
    let word = frame_word(
        net,
        graph,
        tables,
        sendings,
        book,
        place.round,
        unit,
        place.word,
    );
    bus.put(place, word);
    seen.push(Effect::Put { word });
}

// The place of a tick's word on the bus where the slot is the unit's side's.
pub(crate) fn own_place(round: &Round, unit: u8, side: Side, tick: u32) -> Option<SlotPlace>
    requires unit { unit < round.now.units }
    requires tick { tick < cycle_ticks round.now }
    ensures { OwnPlace round.now unit side tick result }
{
    match round.slot_of(tick) {
        Some(place) if place.unit == unit && place.side == side => Some(place),
        _ => None,
    }
}
