/// At which instants of a trace a statement is demanded.
#[derive(Clone, Copy, PartialEq, Eq)]
pub enum Part {
    /// At instant 0.
    Initial,
    /// At every instant above 0.
    Dynamic,
    /// At every instant.
    Always,
    /// At the last instant.
    Final,
}
