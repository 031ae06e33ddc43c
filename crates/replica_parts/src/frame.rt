//! Frames that come.
ghost use Rattle.std.specs.Prelude.{◌≡◌, ◌<◌, IfSome, length, option_copied};
ghost use Rattle.replica_parts.specs.Inbox.{HasFullFrames, frame_on};

use bus::Bus;
use mars_base::Side;

/// The frame of a unit in a round: A's where it is whole, else B's where that is; None where neither is.
pub fn received(bus: &Bus, unit: u8, round: u32) -> Option<&[i32]>
    requires round { round < bus.now.layout.rounds }
    requires unit { unit < bus.now.layout.units }
    requires full { HasFullFrames bus.now }
    ensures frame { option_copied result ≡ frame_on bus.now unit round }
    ensures words { IfSome result (λ words. length words.now ≡ bus.now.layout.slot_words) }
{
    match bus.whole(round, unit, Side::A) {
        Some(words) => Some(words),
        None => bus.whole(round, unit, Side::B),
    }
}
