//! The key of the hashes of a program's names.
use std::alloc::Global;
use tel_base::{HashKey, Memory, Text};
use tel_rule::{Head, Kind, Statement};

// The name that a statement derives, states or defines.
fn name_of(kind: &Kind) -> Option<&Text> {
    match kind {
        Kind::Rule(Head::Normal(atom), _) => Some(&atom.name),
        Kind::Rule(Head::Choice(atom), _) => Some(&atom.name),
        Kind::Rule(Head::None, _) => None,
        Kind::Facts(fact) => Some(&fact.name),
        Kind::Const(name, _) => Some(name),
        Kind::Show(_) => None,
    }
}

/// The key of the names that these statements derive, state or define.
pub fn key_of(alloc: Global, statements: &[Statement]) -> Result<HashKey, Memory> {
    let mut names = Vec::new(alloc);
    for statement in statements {
        if let Some(name) = name_of(&statement.kind) {
            names.push(Text::from_slice(alloc, name.as_slice())?)?;
        }
    }
    Ok(HashKey::of(names.as_slice()))
}
