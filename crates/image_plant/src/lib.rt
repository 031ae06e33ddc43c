//! What an image is: the fields that say a plant, the plant that fields say, and that each says the other.
#![tactic(auto)]
