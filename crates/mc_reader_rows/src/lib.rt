//! Texts with their trees, and texts with their hopeless token, as rows that `read` is run on.
#![tactic(auto)]

#[cfg(test)]
mod tests;
