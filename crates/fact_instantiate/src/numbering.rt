//! Numbers of the atoms of rules and facts among those of a program.
ghost use Rattle.std.specs.Prelude.{◌≡◌, IfOk};
ghost use Rattle.fact_instantiate.specs.Building.{number_in, bound_number};
ghost use Rattle.atom_table.specs.Collected.{fact_atom};

use atom_table::AtomNumbers as ProgramNumbers;
use instance_build::AtomNumbers;
use tel_base::Memory;
use tel_rule::{Atom, Fact};
use tel_term::Value;

/// Numbers of the atoms of a rule under a binding. An atom that has none counts as 0.
#[derive(Drop)]
pub struct BoundNumbers<'a> {
    pub numbers: &'a ProgramNumbers,
    pub binding: &'a [Value],
}

impl AtomNumbers for BoundNumbers<'_> {
    ghost number = { λ bound. bound_number bound.numbers.now bound.binding.now };

    fn number(&self, atom: &Atom) -> Result<u32, Memory> {
        match self.numbers.number(atom, self.binding)? {
            Some(number) => Ok(number),
            None => Ok(0),
        }
    }
}

/// The number of the atom of a fact with this row. An atom that has none counts as 0.
pub fn fact_number(numbers: &ProgramNumbers, fact: &Fact, row: &[Value]) -> Result<u32, Memory>
    ensures { IfOk result (λ number. number ≡ number_in numbers.now (fact_atom fact.now row.now)) }
{
    match numbers.fact_number(fact, row)? {
        Some(number) => Ok(number),
        None => Ok(0),
    }
}
