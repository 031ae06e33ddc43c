use crate::{Frames, Round, SlotPlace};
use mars_base::{ClusterShape, Side};
use std::test::Fail;

// Two units, frames of two words, one idle tick: slots of 3 ticks, rounds of 12, a cycle of 24.
const TWO: ClusterShape = ClusterShape {
    units: 2,
    slot_words: 2,
    precision: 1,
    cycles_per_tick: 7,
    round: 12,
};

fn place(round: u32, unit: u8, side: Side, word: u8) -> Option<SlotPlace> {
    Some(SlotPlace {
        round,
        unit,
        side,
        word,
    })
}

#[test]
fn slots_lie_in_time(rt: HostRuntime) {
    let round = Round::new(&TWO, 24);
    assert_eq!(rt; round.units(), 2);
    assert_eq!(rt; round.slot_words(), 2);
    assert_eq!(rt; round.rounds(), 2);
    assert_eq!(rt; round.slot_start(1, 0, Side::A), 12);
    assert_eq!(rt; round.slot_start(1, 1, Side::B), 21);
    assert_eq!(rt; round.usable(1, 0), 18);
    assert_eq!(rt; round.usable(0, 1), 12);
    assert_eq!(rt; round.slot_of(13), place(1, 0, Side::A, 1));
    assert_eq!(rt; round.slot_of(14), None);
    assert_eq!(rt; round.slot_of(10), place(0, 1, Side::B, 1));
}

#[test]
fn frames_fill(rt: HostRuntime) -> Result<(), Fail> {
    let round = Round::new(&TWO, 24);
    assert_eq!(rt; round.units(), 2);
    assert_eq!(rt; round.slot_words(), 2);
    assert_eq!(rt; round.rounds(), 2);
    let mut frames = Frames::new(rt.alloc(), &round)?;
    assert_eq!(rt; frames.first_room(&round, 0, 1, 2), Some(1));
    assert_eq!(rt; frames.first_room(&round, 0, 0, 2), Some(0));
    assert_eq!(rt; frames.first_room(&round, 0, 13, 0), None);
    assert_eq!(rt; frames.first_room(&round, 1, 6, 3), None);
    assert_eq!(rt; frames.first_room_by(&round, 0, 1, 18, 2), Some(1));
    assert_eq!(rt; frames.first_room_by(&round, 0, 1, 17, 2), None);
    assert_eq!(rt; frames.take(1, 0, 1), 0);
    assert_eq!(rt; frames.taken(1, 0), 1);
    assert_eq!(rt; frames.taken(0, 0), 0);
    assert_eq!(rt; frames.first_room(&round, 1, 6, 1), Some(0));
    assert_eq!(rt; frames.take(1, 0, 1), 1);
    assert_eq!(rt; frames.first_room(&round, 1, 6, 1), Some(1));
    frames.give_back(1, 0, 1);
    assert_eq!(rt; frames.first_room(&round, 1, 6, 1), Some(0));
    Ok(())
}
