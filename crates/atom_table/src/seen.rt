//! The atoms that were seen.
ghost use Rattle.std.specs.Prelude.{◌≡◌, ◌↔◌, ◌-◌, ◌^◌, ◌<◌, [], length, map, IfOk, OnOk, OnErr, IsTrue};
ghost use Rattle.std.specs.List.{list_all, flat_map};
ghost use Rattle.tel_base.specs.Members.{In};
ghost use Rattle.atom_table.specs.Named.{NamedAtom, with_atom, number_of, args_in_range, named_pairs};
ghost use Rattle.atom_table.specs.Collected.{atom_under, fact_atom, formula_atoms, joined, literal_atoms, head_atoms, rule_atoms, with_atoms};
ghost use Rattle.atom_table.specs.Sorted.{Grows, AreSorted};

use crate::keys::{Key, add_name};
use crate::pairing::key_pairs;
use crate::rows::{copy_row, row_under};
use crate::sorting::arrange_keys;
use fact_table::Row;
use indexmap::IndexSet;
use sqlite_items::Items;
use std::alloc::Global;
use std::marker::Model;
use tel_base::{HashKey, Memory, Text};
use tel_rule::{Atom, Fact, Formula, GroundAtom, Head, LitItem, Literal};
use tel_term::{Symbols, Value};

/// Atoms without variables, each once, in the order in which they were first added. Contracts see their list. A name is copied when it is
/// first seen. There are at most 4294967294 atoms and names: more count as want of memory.
#[derive(Drop)]
pub struct AtomSet {
    alloc: Global,
    names: IndexSet<Text, HashKey>,
    keys: IndexSet<Key, HashKey>,
}

impl Model for AtomSet {
    ghost use Rattle.std.specs.Prelude.{List};
    ghost use Rattle.atom_table.specs.Named.{NamedAtom};
    ghost use Rattle.atom_table.specs.Keys.{atoms_by, AreHeld};

    ghost Value = { List NamedAtom };

    ghost view = { λ set. atoms_by set.names.keys set.keys.keys };

    ghost invariant = { λ set. AreHeld set.names.keys set.keys.keys };
}

impl AtomSet {
    /// No atoms. Those that come are hashed by this key, which changes no answer. It takes no memory.
    pub fn new(alloc: Global, key: HashKey) -> AtomSet
        ensures { result ≡ [] }
    {
        AtomSet {
            alloc,
            names: IndexSet::with_hasher(alloc, key),
            keys: IndexSet::with_hasher(alloc, key),
        }
    }

    /// How many atoms there are.
    pub fn len(&self) -> usize
        ensures count { result ≡ length self.now }
        ensures few { length self.now < 2 ^ 32 - 1 }
    {
        self.keys.len()
    }

    /// Adds an atom. Want of memory changes nothing.
    fn insert(&mut self, negative: bool, name: &Text, row: Row) -> Result<(), Memory>
        ensures added { OnOk result (self.new ≡ with_atom self.old (record { negative = negative; name = name.now; args = row })) }
        ensures err { OnErr result (self.new ≡ self.old) }
    {
        let most = u32::MAX as usize - 1;
        if self.names.len() >= most || self.keys.len() >= most {
            return Err(Memory);
        }
        let name = add_name(self.alloc, &mut self.names, name)?;
        self.keys.insert(Key {
            negative,
            name,
            row,
        })?;
        Ok(())
    }

    /// The number of an atom, its place, if it is there.
    fn find(&self, negative: bool, name: &Text, row: Row) -> Option<u32>
        ensures { result ≡ number_of self.now (record { negative = negative; name = name.now; args = row }) }
    {
        let number = match self.names.get_index_of(name) {
            Some(number) => number,
            None => return None,
        };
        let key = Key {
            negative,
            name: number as u32,
            row,
        };
        match self.keys.get_index_of(&key) {
            Some(number) => Some(number as u32),
            None => None,
        }
    }

    /// Adds an atom of a rule under a binding. Its arguments are to have values there; one that has none counts as 0. Want of memory
    /// changes nothing.
    pub fn add(&mut self, atom: &Atom, binding: &[Value]) -> Result<(), Memory>
        ensures added { OnOk result (self.new ≡ with_atom self.old (atom_under binding.now atom.now)) }
        ensures err { OnErr result (self.new ≡ self.old) }
    {
        let row = row_under(self.alloc, atom.args.as_slice(), binding)?;
        self.insert(atom.negative, &atom.name, row)?;
        Ok(())
    }

    /// Adds the atom of a fact with this row. Want of memory changes nothing.
    pub fn add_fact(&mut self, fact: &Fact, row: Row) -> Result<(), Memory>
        ensures added { OnOk result (self.new ≡ with_atom self.old (fact_atom fact.now row)) }
        ensures err { OnErr result (self.new ≡ self.old) }
    {
        self.insert(fact.negative, &fact.name, row)?;
        Ok(())
    }

    /// Adds the atoms of a formula under a binding.
    #[tactic(auto, using(crate::proofs::AddedAtoms::with_both))]
    #[cycle(atoms_of_formulas)]
    fn add_formula(&mut self, formula: &Formula, binding: &[Value]) -> Result<(), Memory>
        ensures { OnOk result (self.new ≡ with_atoms binding.now (formula_atoms formula.now) self.old) }
    {
        match formula {
            Formula::Const(_) => Ok(()),
            Formula::Atom(atom) => self.add(atom, binding),
            Formula::Unary(_, operand) => self.add_formula(operand.get(), binding),
            Formula::Binary(_, left, right) => {
                self.add_formula(left.get(), binding)?;
                self.add_formula(right.get(), binding)?;
                Ok(())
            }
            Formula::Many(_, operands) => self.add_formulas(operands.as_slice(), binding),
        }
    }

    /// Adds the atoms of these formulas under a binding.
    #[tactic(auto, using(crate::proofs::AddedAtoms::with_both))]
    #[cycle(atoms_of_formulas)]
    fn add_formulas(&mut self, formulas: &[Formula], binding: &[Value]) -> Result<(), Memory>
        ensures { OnOk result (self.new ≡ with_atoms binding.now (joined (map formula_atoms formulas.now)) self.old) }
    {
        for formula in formulas {
            self.add_formula(formula, binding)?;
        }
        Ok(())
    }

    /// Adds the atoms of a literal under a binding.
    fn add_literal(&mut self, literal: &Literal, binding: &[Value]) -> Result<(), Memory>
        ensures { OnOk result (self.new ≡ with_atoms binding.now (literal_atoms literal.now) self.old) }
    {
        match &literal.item {
            LitItem::Atom(atom) => self.add(atom, binding),
            LitItem::Tel(formula) => self.add_formula(formula, binding),
            LitItem::Compare(..) => Ok(()),
        }
    }

    /// Adds the atoms of a body under a binding.
    #[tactic(auto, using(crate::proofs::AddedAtoms::with_both))]
    fn add_body(&mut self, body: &[Literal], binding: &[Value]) -> Result<(), Memory>
        ensures { OnOk result (self.new ≡ with_atoms binding.now (flat_map literal_atoms body.now) self.old) }
    {
        for literal in body {
            self.add_literal(literal, binding)?;
        }
        Ok(())
    }

    /// Adds the atom of a head under a binding.
    fn add_head(&mut self, head: &Head, binding: &[Value]) -> Result<(), Memory>
        ensures { OnOk result (self.new ≡ with_atoms binding.now (head_atoms head.now) self.old) }
    {
        match head {
            Head::Normal(atom) | Head::Choice(atom) => self.add(atom, binding),
            Head::None => Ok(()),
        }
    }

    /// Adds each atom of a rule under a binding: of its head, its body's literals and the formulas in them. After want of memory it has
    /// some of them, and is of no use.
    #[tactic(auto, using(crate::proofs::AddedAtoms::with_both))]
    pub fn add_rule(
        &mut self,
        head: &Head,
        body: &[Literal],
        binding: &[Value],
    ) -> Result<(), Memory>
        ensures { OnOk result (self.new ≡ with_atoms binding.now (rule_atoms head.now body.now) self.old) }
    {
        self.add_head(head, binding)?;
        self.add_body(body, binding)?;
        Ok(())
    }

    /// The number of an atom of a rule under a binding, if it is there.
    pub(crate) fn number(&self, atom: &Atom, binding: &[Value]) -> Result<Option<u32>, Memory>
        ensures { IfOk result (λ number. number ≡ number_of self.now (atom_under binding.now atom.now)) }
    {
        let row = row_under(self.alloc, atom.args.as_slice(), binding)?;
        Ok(self.find(atom.negative, &atom.name, row))
    }

    /// The number of the atom of a fact with this row, if it is there.
    pub(crate) fn fact_number(&self, fact: &Fact, row: &[Value]) -> Result<Option<u32>, Memory>
        ensures { IfOk result (λ number. number ≡ number_of self.now (fact_atom fact.now row.now)) }
    {
        let row = copy_row(self.alloc, row)?;
        Ok(self.find(fact.negative, &fact.name, row))
    }

    /// Puts the atoms into their order, gives the symbols their names, and tells the atoms over these.
    pub(crate) fn arrange(&mut self, symbols: &mut Symbols) -> Result<Items<GroundAtom>, Memory>
        requires { IsTrue (list_all (args_in_range symbols.old) self.old) }
        ensures sorted { IfOk result (λ atoms. AreSorted symbols.new atoms self.new) }
        ensures grows { Grows symbols.old symbols.new }
        ensures members { OnOk result ((atom : NamedAtom) → In atom self.new ↔ In atom self.old) }
    {
        let atoms = arrange_keys(self.alloc, symbols, self.names.as_slice(), &mut self.keys)?;
        Ok(atoms)
    }

    /// The numbers of each plain atom and its negative, by the number of the plain one.
    pub(crate) fn pairs(&self) -> Result<Items<(u32, u32)>, Memory>
        ensures { IfOk result (λ pairs. pairs ≡ named_pairs self.now) }
    {
        let pairs = key_pairs(self.alloc, &self.keys)?;
        Ok(pairs)
    }
}
