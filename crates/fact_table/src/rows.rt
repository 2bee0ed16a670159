//! Rows of values.
ghost use Rattle.std.specs.Prelude.{◌≡◌, length};
ghost use Rattle.std.specs.Hash as fed;
ghost use Rattle.std.specs.Cmp.{partial_equiv_from_equiv};
ghost use Rattle.tel_rule.specs.Atoms.{values_eq};
ghost use Rattle.fact_table.specs.Equal.{values_equiv, fed_values, fed_alike};

use std::hash::{Hash, Hasher};
use std::marker::Model;
use tel_term::Value;

/// The arguments of an atom of a table. Contracts see the list of its values.
#[derive(Drop)]
pub struct Row {
    values: Vec<Value>,
}

impl Model for Row {
    ghost use Rattle.std.specs.Prelude.{List};
    ghost use Rattle.tel_term.specs.declared.terms.Value.{Value as TermValue};

    ghost Value = { List TermValue };

    ghost view = { λ row. row.values.items };
}

impl Row {
    /// The row of these values.
    pub fn from_vec(values: Vec<Value>) -> Row
        ensures { result ≡ values.items }
    {
        Row { values }
    }

    /// Its values.
    pub fn as_slice(&self) -> &[Value]
        ensures { result.now ≡ self.now }
    {
        self.values.as_slice()
    }
}

impl PartialEq for Row {
    ghost eq = { values_eq };

    ghost laws = { partial_equiv_from_equiv values_equiv };

    fn eq(&self, other: &Row) -> bool {
        self.as_slice() == other.as_slice()
    }
}

impl Eq for Row {
    ghost laws = { values_equiv };
}

impl Hash for Row {
    ghost hash_input = { fed_values };

    ghost respects_eq = { fed_alike };

    fn hash<H: Hasher>(&self, state: &mut H) {
        self.as_slice().hash(state);
    }
}
