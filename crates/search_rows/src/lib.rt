//! Searches for the tables of worked nets. It is for tests.
#![tactic(auto)]

#[cfg(test)]
mod tests;
