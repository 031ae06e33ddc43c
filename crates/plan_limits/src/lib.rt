//! The command `plan` on projects whose image is long or too long. It is for tests.
#![tactic(auto)]

#[cfg(test)]
mod tests;
