//! The numbers of tables.
ghost use Rattle.std.specs.Prelude.{◌≡◌, ℕ, ◌∷◌, [], map, Some, IfOk, OnOk, bytes_eq};
ghost use Rattle.indexmap.specs.IndexSet.{insert_key};
ghost use Rattle.tel_rule.specs.declared.statements.Signature.{Signature};
ghost use Rattle.tel_semantics.specs.Tables.{gives_rows, predicate_of, tuple_predicate, is_table};
ghost use Rattle.rule_binding.specs.Heads.{or_true, statement_noted, all_noted};
ghost use Rattle.rule_goals.specs.Numbers.{has_number};
ghost use Rattle.fact_rows.specs.Forms.{form_said, form_noted, forms_noted, tuple_form, said, AreNamed, name_number, form_number, number_at, number_in, AreApart};

use indexmap::{IndexMap, IndexSet};
use rule_goals::TableNumbers;
use sqlite_items::Items;
use std::alloc::Global;
use tel_base::{HashKey, Memory, Text};
use tel_rule::{Arg, Atom, Fact, Head, Kind, Part, Statement};

/// A predicate whose name has a number.
#[derive(Clone, Copy, PartialEq, Eq, Hash)]
pub struct Form {
    pub name: usize,
    pub negative: bool,
    pub arity: usize,
}

/// For each predicate that is a head, whether each statement that has it as head gives rows.
type Forms = IndexMap<Form, bool, HashKey>;

/// The number of the table of each predicate that is one. It is found by one hash of the name and one of the
/// rest of the predicate.
#[derive(Drop)]
pub struct PredicateNumbers {
    names: IndexSet<Text, HashKey>,
    forms: Forms,
}

/// Whether the statement is a fact without variables and without a prime in an always part.
fn gives_rows(statement: &Statement) -> bool
    ensures { result ≡ gives_rows statement.now }
{
    match &statement.kind {
        Kind::Facts(fact) => {
            fact.before == 0
                && fact.after == 0
                && statement.part == Part::Always
                && statement.vars.is_empty()
        }
        _ => false,
    }
}

/// Whether each statement so far with this head gives rows.
fn all_give_rows(forms: &Forms, form: Form) -> bool
    ensures { result ≡ or_true (form_said forms.now form) }
{
    match forms.get(&form) {
        Some(rows) => *rows,
        None => true,
    }
}

/// Notes a head, of a statement that gives rows or not.
fn note_form(forms: &mut Forms, head: Form, rows: bool) -> Result<(), Memory>
    ensures { OnOk result ((form : Form) → form_said forms.new form ≡ form_noted rows head form (form_said forms.old form)) }
{
    let rows = rows && all_give_rows(forms, head);
    match forms.insert(head, rows) {
        Ok(_) => {}
        Err(_) => return Err(Memory),
    }
    Ok(())
}

/// Notes the atoms of a fact whose name has this number.
fn note_tuples(
    forms: &mut Forms,
    name: usize,
    negative: bool,
    tuples: &[Items<Arg>],
    rows: bool,
) -> Result<(), Memory>
    ensures { OnOk result ((form : Form) → form_said forms.new form ≡ forms_noted rows (map (tuple_form name negative) tuples.now) form (form_said forms.old form)) }
{
    for tuple in tuples {
        let head = Form {
            name,
            negative,
            arity: tuple.len(),
        };
        note_form(forms, head, rows)?;
    }
    Ok(())
}

/// The number of a name, which it gets if it has none.
fn number_name(
    alloc: Global,
    names: &mut IndexSet<Text, HashKey>,
    name: &Text,
) -> Result<usize, Memory>
    ensures names { OnOk result (names.new.keys ≡ insert_key bytes_eq names.old.keys name.now) }
    ensures number { IfOk result (λ number. number ≡ name_number names.old.keys name.now) }
{
    if let Some(number) = names.get_index_of(name) {
        return Ok(number);
    }
    let name = Text::from_slice(alloc, name.as_slice())?;
    match names.insert_full(name) {
        Ok((number, _)) => Ok(number),
        Err(_) => Err(Memory),
    }
}

impl PredicateNumbers {
    /// Notes the head of a rule.
    fn note_atom(&mut self, alloc: Global, atom: &Atom, rows: bool) -> Result<(), Memory>
        requires { AreNamed self.old.names.keys self.old.forms }
        ensures named { OnOk result (AreNamed self.new.names.keys self.new.forms) }
        ensures noted { OnOk result ((predicate : Signature) → said self.new.names.keys self.new.forms predicate ≡ all_noted rows (predicate_of atom.now ∷ []) predicate (said self.old.names.keys self.old.forms predicate)) }
    {
        let name = number_name(alloc, &mut self.names, &atom.name)?;
        let head = Form {
            name,
            negative: atom.negative,
            arity: atom.args.len(),
        };
        note_form(&mut self.forms, head, rows)?;
        Ok(())
    }

    /// Notes the atoms of a fact.
    fn note_fact(&mut self, alloc: Global, fact: &Fact, rows: bool) -> Result<(), Memory>
        requires { AreNamed self.old.names.keys self.old.forms }
        ensures named { OnOk result (AreNamed self.new.names.keys self.new.forms) }
        ensures noted { OnOk result ((predicate : Signature) → said self.new.names.keys self.new.forms predicate ≡ all_noted rows (map (tuple_predicate fact.now) fact.now.tuples) predicate (said self.old.names.keys self.old.forms predicate)) }
    {
        let name = number_name(alloc, &mut self.names, &fact.name)?;
        note_tuples(
            &mut self.forms,
            name,
            fact.negative,
            fact.tuples.as_slice(),
            rows,
        )?;
        Ok(())
    }

    /// Notes what a statement has as head.
    fn note_statement(&mut self, alloc: Global, statement: &Statement) -> Result<(), Memory>
        requires { AreNamed self.old.names.keys self.old.forms }
        ensures named { OnOk result (AreNamed self.new.names.keys self.new.forms) }
        ensures noted { OnOk result ((predicate : Signature) → said self.new.names.keys self.new.forms predicate ≡ statement_noted statement.now predicate (said self.old.names.keys self.old.forms predicate)) }
    {
        let rows = gives_rows(statement);
        match &statement.kind {
            Kind::Rule(head, _) => match head {
                Head::Normal(atom) => self.note_atom(alloc, atom, rows),
                Head::Choice(atom) => self.note_atom(alloc, atom, rows),
                Head::None => Ok(()),
            },
            Kind::Facts(fact) => self.note_fact(alloc, fact, rows),
            Kind::Const(_, _) => Ok(()),
            Kind::Show(_) => Ok(()),
        }
    }

    /// The numbers of the tables of a program with these statements. Names are hashed by this key, which changes no
    /// answer. It takes time linear in the statements.
    pub fn of(
        alloc: Global,
        key: HashKey,
        statements: &[Statement],
    ) -> Result<PredicateNumbers, Memory>
        ensures tables { IfOk result (λ numbers. (predicate : Signature) → has_number (number_in numbers predicate) ≡ is_table statements.now predicate) }
        ensures apart { IfOk result (λ numbers. AreApart (number_in numbers)) }
    {
        let mut numbers = PredicateNumbers {
            names: IndexSet::with_hasher(alloc, key),
            forms: IndexMap::with_hasher(alloc, key),
        };
        for statement in statements {
            numbers.note_statement(alloc, statement)?;
        }
        if numbers.forms.len() > u32::MAX as usize {
            return Err(Memory);
        }
        Ok(numbers)
    }

    /// The number of a name, or the count of names where it has none.
    pub fn name_number(&self, name: &Text) -> usize
        ensures { result ≡ name_number self.now.names.keys name.now }
    {
        match self.names.get_index_of(name) {
            Some(number) => number,
            None => self.names.len(),
        }
    }

    /// The number of the table of a predicate whose name has a number.
    pub fn form_number(&self, form: Form) -> Option<u32>
        ensures { result ≡ form_number self.now.forms form }
    {
        match self.forms.get_full(&form) {
            Some((place, _, rows)) => { if *rows { number_at(place) } else { None } }
            None => None,
        }
    }
}

/// The place as a number of 32 bits.
fn number_at(place: usize) -> Option<u32>
    ensures { result ≡ number_at (Some place) }
{
    if place < 1 << 32 {
        Some(place as u32)
    } else {
        None
    }
}

impl TableNumbers for PredicateNumbers {
    ghost number = { number_in };

    fn number(&self, atom: &Atom) -> Option<u32> {
        let name = self.name_number(&atom.name);
        self.form_number(Form {
            name,
            negative: atom.negative,
            arity: atom.args.len(),
        })
    }
}
