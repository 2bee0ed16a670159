use tel_base::{Place, Text};

/// Why a program is refused. A place is that of the first token of the statement.
#[derive(Drop)]
pub enum CheckFault {
    /// A variable of the statement isn't bound; the first one is named.
    Unbound(Place, Text),
    /// The statement has a head, and an arrow in a `&tel` literal without `not`, with no `~` above it.
    Arrow(Place),
    /// An atom of the body has a trailing prime, the head a leading one, or an atom inside `&tel` any.
    Prime(Place),
    /// The name is defined by an earlier `#const`, or its expression has no value.
    Const(Place, Text),
    Memory,
}
