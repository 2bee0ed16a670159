use tel_semantics::How;

/// How the listing of a length ended, and how many of its traces were printed, at most 18446744073709551615.
#[derive(Clone, Copy, PartialEq, Eq)]
pub struct LengthEnd {
    pub how: How,
    pub traces: u64,
}

/// Why a listing was cut short.
#[derive(Clone, Copy, PartialEq, Eq)]
pub enum EngineFault {
    /// A write failed.
    Write,
    /// There was no memory.
    Memory,
}
