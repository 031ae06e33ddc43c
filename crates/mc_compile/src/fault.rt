//! Why there is no code of a task.
use mars_base::Memory as NoMemory;

/// Why there is no code of a task.
#[derive(Clone, Copy, Debug, PartialEq, Eq)]
pub enum CompileFault {
    /// The code would have so many instructions, more than 65,535.
    CodeTooLong(u64),
    /// There is no memory.
    Memory,
}

impl From<NoMemory> for CompileFault {
    ghost use Rattle.std.specs.Prelude.{◌≡◌};
    ghost use Rattle.mc_compile.specs.declared.fault.CompileFault.TheVariants.{Memory as OutOfMemory};

    ghost from_gives = { λ _ fault. fault ≡ OutOfMemory };

    fn from(_error: NoMemory) -> CompileFault {
        CompileFault::Memory
    }
}
