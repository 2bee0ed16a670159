//! Atoms in their order, and their numbers.
ghost use Rattle.std.specs.Prelude.{◌≡◌, ◌↔◌, IfOk, IsTrue};
ghost use Rattle.std.specs.List.{list_all};
ghost use Rattle.tel_base.specs.Members.{In};
ghost use Rattle.tel_rule.specs.Atoms.{pairs_of};
ghost use Rattle.atom_table.specs.Named.{NamedAtom, number_of, args_in_range, named_pairs};
ghost use Rattle.atom_table.specs.Collected.{atom_under, fact_atom};
ghost use Rattle.atom_table.specs.Sorted.{Grows, AreSorted};

use crate::seen::AtomSet;
use sqlite_items::Items;
use std::marker::Model;
use tel_base::Memory;
use tel_rule::{Atom, Fact, GroundAtom};
use tel_term::{Symbols, Value};

/// The numbers of atoms without variables. Contracts see the list of the atoms, of which each one's place is its number.
#[derive(Drop)]
pub struct AtomNumbers {
    set: AtomSet,
}

impl Model for AtomNumbers {
    ghost use Rattle.std.specs.Prelude.{List};
    ghost use Rattle.atom_table.specs.Named.{NamedAtom};

    ghost Value = { List NamedAtom };

    ghost view = { λ numbers. numbers.set };
}

impl AtomNumbers {
    /// The number of an atom of a rule under a binding, if it is there. It is found by a hash of its name and one of the other parts.
    pub fn number(&self, atom: &Atom, binding: &[Value]) -> Result<Option<u32>, Memory>
        ensures { IfOk result (λ number. number ≡ number_of self.now (atom_under binding.now atom.now)) }
    {
        let number = self.set.number(atom, binding)?;
        Ok(number)
    }

    /// The number of the atom of a fact with this row, if it is there.
    pub fn fact_number(&self, fact: &Fact, row: &[Value]) -> Result<Option<u32>, Memory>
        ensures { IfOk result (λ number. number ≡ number_of self.now (fact_atom fact.now row.now)) }
    {
        let number = self.set.fact_number(fact, row)?;
        Ok(number)
    }

    /// The pairs of a plain atom and its negative.
    fn pairs(&self) -> Result<Items<(u32, u32)>, Memory>
        ensures { IfOk result (λ pairs. pairs ≡ named_pairs self.now) }
    {
        let pairs = self.set.pairs()?;
        Ok(pairs)
    }
}

/// Atoms in their order: the symbols with the names of the atoms in them, the atoms over these, and their numbers.
#[derive(Drop)]
pub struct SortedAtoms {
    pub symbols: Symbols,
    pub atoms: Items<GroundAtom>,
    pub numbers: AtomNumbers,
}

impl SortedAtoms {
    /// The pairs of a plain atom and its negative, by the number of the plain one. It takes one look-up for each plain atom.
    pub fn pairs(&self) -> Result<Items<(u32, u32)>, Memory>
        requires { AreSorted self.now.symbols self.now.atoms self.now.numbers }
        ensures { IfOk result (λ pairs. pairs ≡ pairs_of self.now.atoms) }
    {
        let pairs = self.numbers.pairs()?;
        Ok(pairs)
    }
}

impl AtomSet {
    /// Puts the atoms into their order and numbers them by it. The symbols get the names of the atoms, too, behind those that they have, so
    /// that each value stands for what it stood for. The values of the atoms are to be numbers and symbols of the table. Symbols are
    /// compared by their bytes in a sort of their own, and atoms by numbers alone. More than 4294967295 symbols count as want of memory.
    pub fn sort(self, symbols: Symbols) -> Result<SortedAtoms, Memory>
        requires { IsTrue (list_all (args_in_range symbols) self) }
        ensures sorted { IfOk result (λ sorted. AreSorted sorted.symbols sorted.atoms sorted.numbers) }
        ensures grows { IfOk result (λ sorted. Grows symbols sorted.symbols) }
        ensures members { IfOk result (λ sorted. (atom : NamedAtom) → In atom sorted.numbers ↔ In atom self) }
    {
        let mut symbols = symbols;
        let mut set = self;
        let atoms = set.arrange(&mut symbols)?;
        Ok(SortedAtoms {
            symbols,
            atoms,
            numbers: AtomNumbers { set },
        })
    }
}
