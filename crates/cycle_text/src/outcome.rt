//! What a cycle has come to.
ghost use Rattle.std.specs.Prelude.{◌≡◌, ◌≤◌, ◌↔◌, ℕ, List, ℤ, Option, IsTrue, true, Bool, IfSome, length, option_copied};

/// What the jobs of a cycle have come to.
pub trait Outcome {
    /// The words that each actuator gets for each instance of its task, where its job has given any.
    ghost given: { Self → ℕ → ℕ → Option (List ℤ) };

    /// Whether each job is broken, by its number.
    ghost broken: { Self → ℕ → Bool };

    /// The words that an actuator gets for an instance of its task; None where its job has given none.
    fn words(&self, actuator: u16, instance: u32) -> Option<&[i32]>
        ensures words { option_copied result ≡ given self.now actuator instance }
        ensures few { IfSome result (λ words. length words.now ≤ 16) };

    /// Whether a job is broken.
    fn is_broken(&self, job: u16) -> bool
        ensures { result ≡ broken self.now job };
}
