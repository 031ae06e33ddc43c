//! What holds of a cluster's bus over every list of events.
#![tactic(auto)]

ghost use Rattle.cluster_slots.specs.OwnWords.{OwnWordsOfAll};

/// What holds of the clocks and the slots of a cluster of valid tables after every list of enabled events, in
/// every cycle and whatever is lost: the clocks of replicas that run differ by at most the precision; at most
/// one slot is sending; a slot that is whole has the words that its own replica put at its own ticks; and a
/// replica that fell silent is never enabled again.
pub fn own_words()
    ensures { OwnWordsOfAll }
{}
