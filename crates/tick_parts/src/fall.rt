//! The end of a replica: it falls silent.
ghost use Rattle.std.specs.Prelude.{◌≡◌, ◌≤◌, ◌<◌, ◌+◌, ◌++◌, ℕ, length, map};
ghost use Rattle.mars_base.specs.declared.shape.Side.{Side};
ghost use Rattle.bus.specs.Numbers.{slot_of};
ghost use Rattle.bus.specs.SlotState.{IsSending, cut};
ghost use Rattle.tdma.specs.Layout.{cycle_ticks};
ghost use Rattle.cluster_model.specs.Effects.{fall_effects};
ghost use Rattle.tick_parts.specs.OnBus.{IsBusOf, IsInSlot, slots_on};

use crate::put::own_place;
use bus::Bus;
use cluster_model::Effect;
use effect_buf::EffectBuf;
use mars_base::Side;
use tdma::Round;

/// A replica falls silent at a tick: the slot that it is sending is cut, and both are shown. It may be sending no
/// slot but the one in which the tick is.
pub fn fall_silent(
    round: &Round,
    unit: u8,
    side: Side,
    tick: u32,
    bus: &mut Bus,
    seen: &mut EffectBuf,
)
    requires bus { IsBusOf round.now bus.old }
    requires unit { unit < round.now.units }
    requires tick { tick < cycle_ticks round.now }
    requires sends { (k : ℕ) → k < round.now.rounds → IsSending (slot_of bus.old k unit side) → IsInSlot round.now unit side tick k }
    requires room { length seen.old + 2 ≤ 1028 }
    ensures bus { IsBusOf round.now bus.new }
    ensures own { slots_on bus.new unit side ≡ map cut (slots_on bus.old unit side) }
    ensures others { (u : ℕ) (x : Side) → u < round.now.units → (u ≡ unit → x ≡ side → ⊥) → slots_on bus.new u x ≡ slots_on bus.old u x }
    ensures effects { seen.new ≡ seen.old ++ fall_effects (slots_on bus.old unit side) }
{
    seen.push(Effect::Fell);
    let Some(place) = own_place(round, unit, side, tick) else {
        return;
    };
    if bus.is_sending(place.round, unit, side) {
        bus.cut(place.round, unit, side);
        seen.push(Effect::Cut);
    }
}
