//! What the replicas of a worked cluster look up and hold before their first tick. It is for tests.
#![tactic(auto)]

#[cfg(test)]
mod tests;
