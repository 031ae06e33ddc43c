//! Entries with names.
ghost use Rattle.std.specs.Prelude.{◌≡◌, List, ℕ};

/// An entry with a name.
pub trait Named {
    /// Its name's bytes.
    ghost name_of: { Self → List ℕ };

    /// Its name's bytes.
    fn name(&self) -> &[u8]
        ensures { result.now ≡ name_of self.now };
}
