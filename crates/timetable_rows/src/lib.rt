//! When units have to do with the entries of worked tables. It is for tests.
#![tactic(auto)]

#[cfg(test)]
mod tests;
