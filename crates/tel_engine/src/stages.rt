/// What an engine may do next.
#[derive(Clone, Copy, PartialEq, Eq)]
pub enum Stage {
    /// Its length may be listed, or it may be extended once more.
    Extended,
    /// Its length is listed, or it has none yet: it may be extended.
    Listed,
    /// A listing was cut short. It isn't used again.
    Lost,
}
