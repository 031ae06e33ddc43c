//! The first part of a tick: the frames that may be used from it on.
ghost use Rattle.std.specs.Prelude.{◌≡◌, ◌≤◌, ◌<◌, ◌+◌, ◌++◌, ℕ, List, [], ◌∷◌, ℤ, Option, None, Some, IsSome, ◌↔◌, IsTrue, length};
ghost use Rattle.mars_base.specs.declared.shape.Side.TheVariants.{A, B};
ghost use Rattle.graph.specs.NetGraph.{IsNetGraph};
ghost use Rattle.tables.specs.Valid.{AreValid, bus_of};
ghost use Rattle.timetable.specs.Keys.{arrivals_in};
ghost use Rattle.net_run.specs.NetRun.{Execution};
ghost use Rattle.bus.specs.Numbers.{slot_of};
ghost use Rattle.bus.specs.SlotState.{whole};
ghost use Rattle.job_inputs.specs.Look.{IsInboxOf};
ghost use Rattle.cluster_model.specs.Plan.{Plan, listed};
ghost use Rattle.cluster_model.specs.PlanOf.{plan_of};
ghost use Rattle.cluster_model.specs.State.{Held};
ghost use Rattle.cluster_model.specs.Tick.{took};
ghost use Rattle.cluster_model.specs.Effects.{taking, take_effects};
ghost use Rattle.tick_parts.specs.OnBus.{IsBusOf, bus_on};
ghost use Rattle.tick_parts.specs.Takes.{AreWidths};

use agenda::Schedule;
use bus::Bus;
use cluster_model::Effect;
use effect_buf::EffectBuf;
use graph::{Graph, Net};
use mars_base::Side;
use replica_parts::{Inbox, take_due};
use tables::Tables;
use timetable::message_at;

/// Takes each message for the unit whose frame may be used from this tick on, and shows the frame.
pub fn take_frames(
    net: &Net,
    graph: &Graph,
    tables: &Tables,
    arrivals: &Schedule,
    bus: &Bus,
    unit: u8,
    tick: u32,
    inbox: &mut Inbox,
    seen: &mut EffectBuf,
)
    requires net { IsNetGraph net.now graph.now }
    requires valid { AreValid net.now graph.now tables.now }
    requires arrivals { arrivals.now ≡ arrivals_in net.now graph.now tables.now unit }
    requires bus { IsBusOf (bus_of net.now graph.now) bus.now }
    requires tick { tick < graph.now.cycle }
    requires inbox { IsInboxOf net.now tables.now inbox.old }
    requires widths { AreWidths net.now tables.now inbox.old.widths }
    requires room { length seen.old < 1028 }
    ensures widths { inbox.new.widths ≡ inbox.old.widths }
    ensures inbox { IsInboxOf net.now tables.now inbox.new }
    ensures taken { (words : List ℕ) (exec : Execution) (cost : ℕ → List ℤ → List ℤ → ℕ) (h : Held) → h.clock ≡ tick → h.taken ≡ inbox.old.words
        → inbox.new.words ≡ listed (length tables.now.messages) (took (plan_of net.now graph.now tables.now words exec cost) (bus_on bus.now) unit h) }
    ensures effects { (words : List ℕ) (exec : Execution) (cost : ℕ → List ℤ → List ℤ → ℕ)
        → seen.new ≡ seen.old ++ take_effects (plan_of net.now graph.now tables.now words exec cost) (bus_on bus.now) unit tick }
    ensures few { length seen.new ≤ length seen.old + 1 }
{
    show_frame(net, graph, tables, arrivals, bus, unit, tick, seen);
    take_due(
        inbox,
        arrivals,
        tables.messages.as_slice(),
        bus,
        tick as usize,
    );
}

// Shows the frame that may be used from this tick on, where there is one with a message for the unit.
fn show_frame(
    net: &Net,
    graph: &Graph,
    tables: &Tables,
    arrivals: &Schedule,
    bus: &Bus,
    unit: u8,
    tick: u32,
    seen: &mut EffectBuf,
)
    requires net { IsNetGraph net.now graph.now }
    requires valid { AreValid net.now graph.now tables.now }
    requires arrivals { arrivals.now ≡ arrivals_in net.now graph.now tables.now unit }
    requires bus { IsBusOf (bus_of net.now graph.now) bus.now }
    requires tick { tick < graph.now.cycle }
    requires room { length seen.old < 1028 }
    ensures effects { (words : List ℕ) (exec : Execution) (cost : ℕ → List ℤ → List ℤ → ℕ)
        → seen.new ≡ seen.old ++ take_effects (plan_of net.now graph.now tables.now words exec cost) (bus_on bus.now) unit tick }
    ensures few { length seen.new ≤ length seen.old + 1 }
{
    let Some(first) = arrivals.first(tick as usize) else {
        return;
    };
    let message = message_at(tables, first as usize);
    seen.push(taking(bus, message.unit, message.round));
}

// What is seen of the frame of a unit and a round: it is taken from A where it is whole, else from B where that is,
// or missed.
fn taking(bus: &Bus, from: u8, round: u32) -> Effect
    requires round { round < bus.now.layout.rounds }
    requires unit { from < bus.now.layout.units }
    ensures { (p : Plan) → result ≡ taking p from round (whole (slot_of bus.now round from A)) (whole (slot_of bus.now round from B)) }
{
    if is_whole(bus, from, Side::A, round) {
        let side = Side::A;
        Effect::Take { from, side, round }
    } else if is_whole(bus, from, Side::B, round) {
        let side = Side::B;
        Effect::Take { from, side, round }
    } else {
        Effect::Miss { from, round }
    }
}

// Whether a frame was sent whole.
fn is_whole(bus: &Bus, from: u8, side: Side, round: u32) -> bool
    requires round { round < bus.now.layout.rounds }
    requires unit { from < bus.now.layout.units }
    ensures { IsTrue result ↔ IsSome (whole (slot_of bus.now round from side)) }
{
    bus.whole(round, from, side).is_some()
}
