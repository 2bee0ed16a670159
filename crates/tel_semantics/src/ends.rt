/// How the listing of a length ended.
#[derive(Clone, Copy, PartialEq, Eq)]
pub enum How {
    /// All its traces were printed.
    Complete,
    /// As many traces were printed as were asked for.
    Limit,
    /// The budget of conflicts was used up.
    Budget,
}
