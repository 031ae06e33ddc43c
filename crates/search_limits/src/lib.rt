//! A search with as many tasks and units as a net may have. It is for tests.
#![tactic(auto)]

#[cfg(test)]
mod tests;
