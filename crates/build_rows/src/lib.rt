//! The command `build` by worked rows. It is for tests.
#![tactic(auto)]

#[cfg(test)]
mod tests;
