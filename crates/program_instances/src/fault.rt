//! Why live instances aren't gathered.
ghost use Rattle.program_instances.specs.declared.fault.GatherFault.TheVariants as faults;
ghost use Rattle.std.specs.Prelude.{◌≡◌};

use std::alloc::AllocError;
use tel_base::Memory as NoMemory;
use thiserror::Error;

/// Why live instances aren't gathered.
#[derive(Clone, Copy, Debug, PartialEq, Eq, Error)]
pub enum GatherFault {
    /// A state would have more places than the limit.
    #[error("too many places")]
    Large,
    /// Want of memory.
    #[error("out of memory")]
    Memory,
}

impl From<NoMemory> for GatherFault {
    ghost from_gives = { λ _ fault. fault ≡ faults.Memory };

    fn from(_: NoMemory) -> GatherFault {
        GatherFault::Memory
    }
}

impl From<AllocError> for GatherFault {
    ghost from_gives = { λ _ fault. fault ≡ faults.Memory };

    fn from(_: AllocError) -> GatherFault {
        GatherFault::Memory
    }
}
