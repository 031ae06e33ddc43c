//! Why a run ended before its last line.
ghost use Rattle.std.specs.Prelude.{◌≡◌};

use mars_base::{Memory, SinkFault};

/// Why a run ended before the end of its lines.
#[derive(Clone, Copy, Debug, PartialEq, Eq)]
pub enum RunFault {
    /// There was no memory.
    Memory,
    /// A read of the input failed.
    Read,
    /// A put to the output failed.
    Write,
    /// The line of this number, from 1, isn't in the grammar, or is one too many.
    BadLine(u64),
    /// An instance broke.
    Broken,
}

impl From<Memory> for RunFault {
    ghost use Rattle.task_run.specs.declared.fault.RunFault.TheVariants as run_fault;

    ghost from_gives = { λ _ e. e ≡ run_fault.Memory };

    fn from(_fault: Memory) -> RunFault {
        RunFault::Memory
    }
}

impl From<SinkFault> for RunFault {
    ghost use Rattle.task_run.specs.declared.fault.RunFault.TheVariants as run_fault;

    ghost from_gives = { λ _ e. e ≡ run_fault.Write };

    fn from(_fault: SinkFault) -> RunFault {
        RunFault::Write
    }
}
