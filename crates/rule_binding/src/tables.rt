//! Which predicates of a program are tables.

ghost use Rattle.std.specs.Prelude.{◌≡◌, ℕ, List, Some, false, map, length, bytes_eq, IfOk, OnOk, if◌then◌else◌};
ghost use Rattle.indexmap.specs.IndexMap.{get};
ghost use Rattle.tel_rule.specs.declared.statements.Signature.{Signature};
ghost use Rattle.tel_semantics.specs.Tables.{gives_rows, is_table, tuple_predicate, predicate_of};
ghost use Rattle.rule_binding.specs.declared.tables.Form.{Form};
ghost use Rattle.rule_binding.specs.Heads.{or_true, or_false, noted, all_noted, statement_noted, form_noted, forms_noted, tuple_form, form_said, forms_said, said, tells};

use indexmap::IndexMap;
use sqlite_items::Items;
use std::alloc::Global;
use tel_base::{HashKey, Memory, Text};
use tel_rule::{Arg, Atom, Fact, Head, Kind, Part, Signature, Statement};

/// A predicate without its name.
#[derive(Clone, Copy, PartialEq, Eq, Hash)]
pub struct Form {
    pub negative: bool,
    pub arity: usize,
}

/// For each predicate of a name that is a head, whether each statement that has it as head gives rows.
type Forms = IndexMap<Form, bool, HashKey>;

/// The tables of a program. Contracts see what they tell of each predicate. A predicate is found
/// without a look at the others.
#[derive(Drop)]
pub struct Tables {
    names: IndexMap<Text, Forms, HashKey>,
}

/// Whether the statement is a fact without variables and without a prime in an always part.
fn gives_rows(statement: &Statement) -> bool
    ensures { result ≡ gives_rows statement.now }
{
    match &statement.kind {
        Kind::Facts(fact) => {
            fact.before == 0
                && fact.after == 0
                && statement.part == Part::Always
                && statement.vars.is_empty()
        }
        _ => false,
    }
}

/// Whether each statement so far with this head gives rows.
fn all_give_rows(forms: &Forms, form: Form) -> bool
    ensures { result ≡ or_true (form_said forms.now form) }
{
    match forms.get(&form) {
        Some(rows) => *rows,
        None => true,
    }
}

/// Notes a head, of a statement that gives rows or not.
fn note_form(forms: &mut Forms, head: Form, rows: bool) -> Result<(), Memory>
    ensures { OnOk result ((form : Form) → form_said forms.new form ≡ form_noted rows head form (form_said forms.old form)) }
{
    let rows = rows && all_give_rows(forms, head);
    match forms.insert(head, rows) {
        Ok(_) => {}
        Err(_) => return Err(Memory),
    }
    Ok(())
}

/// Notes the atoms of a fact.
fn note_tuples(
    forms: &mut Forms,
    negative: bool,
    tuples: &[Items<Arg>],
    rows: bool,
) -> Result<(), Memory>
    ensures { OnOk result ((form : Form) → form_said forms.new form ≡ forms_noted rows (map (tuple_form negative) tuples.now) form (form_said forms.old form)) }
{
    for tuple in tuples {
        let head = Form {
            negative,
            arity: tuple.len(),
        };
        note_form(forms, head, rows)?;
    }
    Ok(())
}

/// Takes away what is known of a name.
fn take_forms(
    alloc: Global,
    key: HashKey,
    names: &mut IndexMap<Text, Forms, HashKey>,
    name: &Text,
) -> Forms
    ensures forms { (form : Form) → form_said result form ≡ forms_said (get bytes_eq names.old name.now) form }
    ensures others { (other : List ℕ) → bytes_eq name.now other ≡ false → get bytes_eq names.new other ≡ get bytes_eq names.old other }
{
    match names.swap_remove(name) {
        Some(forms) => forms,
        None => IndexMap::with_hasher(alloc, key),
    }
}

/// Puts back what is known of a name.
fn put_forms(
    alloc: Global,
    names: &mut IndexMap<Text, Forms, HashKey>,
    name: &Text,
    forms: Forms,
) -> Result<(), Memory>
    ensures { OnOk result ((other : List ℕ) → get bytes_eq names.new other ≡ (if bytes_eq name.now other then Some forms else get bytes_eq names.old other)) }
{
    let name = Text::from_slice(alloc, name.as_slice())?;
    match names.insert(name, forms) {
        Ok(_) => {}
        Err(_) => return Err(Memory),
    }
    Ok(())
}

/// Notes the head of a rule.
fn note_atom(
    alloc: Global,
    key: HashKey,
    names: &mut IndexMap<Text, Forms, HashKey>,
    atom: &Atom,
    rows: bool,
) -> Result<(), Memory>
    ensures { OnOk result ((predicate : Signature) → said names.new predicate ≡ noted rows (predicate_of atom.now) predicate (said names.old predicate)) }
{
    let mut forms = take_forms(alloc, key, names, &atom.name);
    let head = Form {
        negative: atom.negative,
        arity: atom.args.len(),
    };
    note_form(&mut forms, head, rows)?;
    put_forms(alloc, names, &atom.name, forms)
}

/// Notes the atoms of a fact.
fn note_fact(
    alloc: Global,
    key: HashKey,
    names: &mut IndexMap<Text, Forms, HashKey>,
    fact: &Fact,
    rows: bool,
) -> Result<(), Memory>
    ensures { OnOk result ((predicate : Signature) → said names.new predicate ≡ all_noted rows (map (tuple_predicate fact.now) fact.now.tuples) predicate (said names.old predicate)) }
{
    let mut forms = take_forms(alloc, key, names, &fact.name);
    note_tuples(&mut forms, fact.negative, fact.tuples.as_slice(), rows)?;
    put_forms(alloc, names, &fact.name, forms)
}

/// Notes what a statement has as head.
fn note_statement(
    alloc: Global,
    key: HashKey,
    names: &mut IndexMap<Text, Forms, HashKey>,
    statement: &Statement,
) -> Result<(), Memory>
    ensures { OnOk result ((predicate : Signature) → said names.new predicate ≡ statement_noted statement.now predicate (said names.old predicate)) }
{
    let rows = gives_rows(statement);
    match &statement.kind {
        Kind::Rule(head, _) => match head {
            Head::Normal(atom) => note_atom(alloc, key, names, atom, rows),
            Head::Choice(atom) => note_atom(alloc, key, names, atom, rows),
            Head::None => Ok(()),
        },
        Kind::Facts(fact) => note_fact(alloc, key, names, fact, rows),
        Kind::Const(_, _) => Ok(()),
        Kind::Show(_) => Ok(()),
    }
}

impl Tables {
    /// The tables of a program with these statements. Names are hashed by this key, which changes no
    /// answer. It takes time linear in the statements.
    pub fn of(alloc: Global, key: HashKey, statements: &[Statement]) -> Result<Tables, Memory>
        ensures { IfOk result (λ tables. (predicate : Signature) → tells tables predicate ≡ is_table statements.now predicate) }
    {
        let mut names = IndexMap::with_hasher(alloc, key);
        for statement in statements {
            note_statement(alloc, key, &mut names, statement)?;
        }
        Ok(Tables { names })
    }

    /// Whether the predicate with this sign, this name and so many arguments is a table.
    fn has(&self, negative: bool, name: &Text, arity: usize) -> bool
        ensures { result ≡ tells self.now (record { negative = negative; name = name.now; arity = arity }) }
    {
        match self.names.get(name) {
            Some(forms) => match forms.get(&Form { negative, arity }) {
                Some(rows) => *rows,
                None => false,
            },
            None => false,
        }
    }

    /// Whether the predicate is a table.
    pub fn is_table(&self, predicate: &Signature) -> bool
        ensures { result ≡ tells self.now predicate.now }
    {
        self.has(
            predicate.negative,
            &predicate.name,
            predicate.arity as usize,
        )
    }

    /// Whether the predicate of an atom is a table.
    pub fn has_atom(&self, atom: &Atom) -> bool
        ensures { result ≡ tells self.now (predicate_of atom.now) }
    {
        self.has(atom.negative, &atom.name, atom.args.len())
    }
}
