//! Why live bindings aren't given.
ghost use Rattle.live_bindings.specs.declared.fault.LiveFault.TheVariants as faults;
ghost use Rattle.std.specs.Prelude.{◌≡◌};

use tel_base::Memory as NoMemory;
use thiserror::Error;

/// Why live bindings aren't given.
#[derive(Clone, Copy, Debug, PartialEq, Eq, Error)]
pub enum LiveFault {
    /// There are more of them than the limit.
    #[error("too many live bindings")]
    Large,
    /// Want of memory.
    #[error("out of memory")]
    Memory,
}

impl From<NoMemory> for LiveFault {
    ghost from_gives = { λ _ fault. fault ≡ faults.Memory };

    fn from(_: NoMemory) -> LiveFault {
        LiveFault::Memory
    }
}
