//! Why a listing is cut short.
use tel_base::Memory;

/// Why a listing is cut short.
#[derive(Clone, Copy, PartialEq, Eq)]
pub enum ListFault {
    /// A write to the log failed.
    Write,
    /// There was no memory.
    Memory,
}

impl From<Memory> for ListFault {
    fn from(_: Memory) -> ListFault {
        ListFault::Memory
    }
}
