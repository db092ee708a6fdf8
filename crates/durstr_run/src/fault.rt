//! Why a run fails.
ghost use Rattle.std.specs.Prelude.{◌≡◌};
ghost use Rattle.durstr_run.specs.declared.fault.RunFault.TheVariants.{Memory};

use std::alloc::AllocError;

/// Why a run failed.
#[derive(Clone, Copy, Debug, PartialEq, Eq)]
pub enum RunFault {
    /// A read failed.
    Read,
    /// A write or the flush failed, or a write of a nonempty part took nothing.
    Write,
    /// The reader gave more than 1,048,576 bytes.
    TooLong,
    /// Memory was refused.
    Memory,
}

impl From<AllocError> for RunFault {
    ghost from_gives = { λ _ e. e ≡ Memory };

    fn from(_error: AllocError) -> RunFault {
        RunFault::Memory
    }
}
