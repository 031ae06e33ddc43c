ghost use Rattle.std.specs.Prelude.{◌≡◌, ◌<◌};

use crate::{Bus, Open, Sent};
use mars_base::{ClusterShape, Side};
use std::process::Abort;
use std::test::Fail;
use tdma::{Round, SlotPlace};

#[test]
fn one_slot(rt: HostRuntime) -> Result<(), Fail> {
    let Sent::More(sending) = Open::new(rt.alloc(), 2)?.begin().put(3) else {
        assert!(rt; false);
        return Ok(());
    };
    let Sent::Done(closed) = sending.put(4) else {
        assert!(rt; false);
        return Ok(());
    };
    assert_eq!(rt; closed.whole(), Some(&[3, 4][..]));
    let Sent::More(sending) = closed.reopen().begin().put(5) else {
        assert!(rt; false);
        return Ok(());
    };
    assert_eq!(rt; sending.cut().whole(), None);
    Ok(())
}

// One word more, where the slot stands at it.
fn put(rt: &impl Abort, bus: &mut Bus, place: SlotPlace, word: i32)
    requires round { place.round < bus.old.layout.rounds }
    requires unit { place.unit < bus.old.layout.units }
    ensures { bus.new.layout ≡ bus.old.layout }
{
    assert!(rt; bus.stands_at(place));
    bus.put(place, word);
}

// Two units, frames of two words, one idle tick: a cycle of 24 ticks has two rounds.
#[test]
fn a_cycle(rt: HostRuntime) -> Result<(), Fail> {
    let shape = ClusterShape {
        units: 2,
        slot_words: 2,
        precision: 1,
        cycles_per_tick: 7,
        round: 12,
    };
    let mut bus = Bus::new(rt.alloc(), &Round::new(&shape, 24))?;
    let first = SlotPlace {
        round: 1,
        unit: 0,
        side: Side::B,
        word: 0,
    };
    let last = SlotPlace { word: 1, ..first };
    assert!(rt; bus.stands_at(first) && !bus.stands_at(last));
    put(&rt, &mut bus, first, 5);
    assert!(rt; bus.is_sending(1, 0, Side::B) && bus.stands_at(last) && !bus.stands_at(first));
    assert_eq!(rt; bus.whole(1, 0, Side::B), None);
    put(&rt, &mut bus, last, 6);
    assert_eq!(rt; bus.whole(1, 0, Side::B), Some(&[5, 6][..]));
    assert!(rt; !bus.is_sending(1, 0, Side::B) && !bus.stands_at(first) && !bus.stands_at(last));
    for (round, unit, side) in [(1, 0, Side::A), (1, 1, Side::B), (0, 0, Side::B)] {
        assert_eq!(rt; bus.whole(round, unit, side), None);
    }
    bus.clear();
    assert_eq!(rt; bus.whole(1, 0, Side::B), None);
    put(&rt, &mut bus, first, 7);
    assert!(rt; bus.is_sending(1, 0, Side::B));
    bus.cut(1, 0, Side::B);
    assert_eq!(rt; bus.whole(1, 0, Side::B), None);
    assert!(rt; !bus.stands_at(last) && !bus.is_sending(1, 0, Side::B));
    Ok(())
}
