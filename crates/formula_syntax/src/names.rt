ghost use Rattle.std.specs.Prelude.{◌≡◌, []};

use crate::variables::Variables;
use std::alloc::Global;
use tel_term::Symbols;

/// What a reading has seen so far: the names and strings of the program, which have numbers, and the
/// variables of the statement in the order of their first occurrence. Each `_` is a variable of its
/// own.
#[derive(Drop)]
pub struct Names {
    pub symbols: Symbols,
    pub vars: Variables,
}

impl Names {
    /// No names yet. It takes no memory.
    pub fn new(alloc: Global) -> Names
        ensures symbols { result.symbols ≡ [] }
        ensures vars { result.vars ≡ [] }
    {
        Names {
            symbols: Symbols::new(alloc),
            vars: Variables::new(alloc),
        }
    }
}
