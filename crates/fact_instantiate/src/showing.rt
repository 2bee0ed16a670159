//! Which atoms of a program are shown.
ghost use Rattle.std.specs.Prelude.{◌≡◌, ◌||◌, ◌++◌, ◌∷◌, [], ◌<◌, ◌^◌, length, IfOk, OnOk, IsTrue, if◌then◌else◌};
ghost use Rattle.std.specs.List.{list_all, list_any};
ghost use Rattle.tel_rule.specs.Atoms.{name_bytes, atom_in_range};
ghost use Rattle.tel_semantics.specs.Tables.{same_predicate};
ghost use Rattle.program_theory.specs.Theory.{is_show, named_predicates};
ghost use Rattle.tel_rule.specs.declared.statements.Signature.{Signature};
ghost use Rattle.tel_rule.specs.declared.ground.GroundAtom.{GroundAtom};
ghost use Rattle.fact_instantiate.specs.Shown.{ground_predicate, numbers_from, has_show, all_named, show_by};
ghost use Rattle.fact_instantiate.specs.Named.{has_key};

use indexmap::IndexSet;
use sqlite_items::Items;
use std::alloc::Global;
use tel_base::{HashKey, Memory};
use tel_rule::{GroundAtom, Kind, Show, Signature, Statement};
use tel_term::{Symbols, Term, Value};

/// A predicate that is named.
#[derive(Clone, Copy, PartialEq, Eq, Hash)]
pub struct Key<'a> {
    pub negative: bool,
    pub name: &'a [u8],
    pub arity: usize,
}

/// The predicates that are named, each once.
type Named<'a> = IndexSet<Key<'a>, HashKey>;

/// Whether a statement says what is shown.
fn is_show(kind: &Kind) -> bool
    ensures { result ≡ is_show kind.now }
{
    match kind {
        Kind::Show(_) => true,
        Kind::Rule(..) => false,
        Kind::Facts(_) => false,
        Kind::Const(..) => false,
    }
}

/// Whether some statement says what is shown.
fn has_show(statements: &[Statement]) -> bool
    ensures { result ≡ has_show statements.now }
{
    for statement in statements {
        if is_show(&statement.kind) {
            return true;
        }
    }
    false
}

/// Adds a predicate.
fn add_predicate<'a>(named: &mut Named<'a>, predicate: &'a Signature) -> Result<(), Memory>
    ensures { OnOk result ((other : Signature) → has_key named.new other ≡ (has_key named.old other || same_predicate other predicate.now)) }
{
    let key = Key {
        negative: predicate.negative,
        name: predicate.name.as_slice(),
        arity: predicate.arity as usize,
    };
    match named.insert(key) {
        Ok(_) => Ok(()),
        Err(_) => Err(Memory),
    }
}

/// Adds the predicate that a statement names.
fn add_named<'a>(named: &mut Named<'a>, kind: &'a Kind) -> Result<(), Memory>
    ensures { OnOk result ((other : Signature) → has_key named.new other ≡ (has_key named.old other || list_any (same_predicate other) (named_predicates kind.now))) }
{
    match kind {
        Kind::Show(shown) => match shown {
            Some(predicate) => {
                add_predicate(named, predicate)?;
                Ok(())
            }
            None => Ok(()),
        },
        Kind::Rule(..) => Ok(()),
        Kind::Facts(_) => Ok(()),
        Kind::Const(..) => Ok(()),
    }
}

/// The predicates that statements name.
fn all_named(alloc: Global, key: HashKey, statements: &[Statement]) -> Result<Named<'_>, Memory>
    ensures { IfOk result (λ named. (predicate : Signature) → has_key named predicate ≡ list_any (same_predicate predicate) (all_named statements.now)) }
{
    let mut named = IndexSet::with_hasher(alloc, key);
    for statement in statements {
        add_named(&mut named, &statement.kind)?;
    }
    Ok(named)
}

/// The bytes of a name. A number or a string is none.
fn name_of(term: &Term) -> &[u8]
    ensures { result.now ≡ name_bytes term.now }
{
    match term {
        Term::Name(name) => name.as_slice(),
        Term::Num(_) => &[],
        Term::Str(_) => &[],
    }
}

/// Whether the predicate of an atom is among these.
fn is_named<'a>(named: &Named<'a>, symbols: &'a Symbols, atom: &GroundAtom) -> bool
    requires { IsTrue (atom_in_range symbols.now atom.now) }
    ensures { result ≡ has_key named.now (ground_predicate symbols.now atom.now) }
{
    named.contains(&Key {
        negative: atom.negative,
        name: name_of(symbols.term(Value::Sym(atom.name))),
        arity: atom.args.len(),
    })
}

/// Puts a number behind these, if it is to be there.
fn push_number(numbers: &mut Items<u32>, number: u32, is: bool) -> Result<(), Memory>
    ensures { OnOk result (numbers.new ≡ numbers.old ++ (if is then number ∷ [] else [])) }
{
    if is {
        numbers.push(number)?;
    }
    Ok(())
}

/// The numbers of the atoms whose predicates are among these.
fn named_numbers<'a>(
    alloc: Global,
    named: &Named<'a>,
    symbols: &'a Symbols,
    atoms: &[GroundAtom],
) -> Result<Items<u32>, Memory>
    requires in_range { IsTrue (list_all (atom_in_range symbols.now) atoms.now) }
    requires few { length atoms.now < 2 ^ 32 }
    ensures { IfOk result (λ numbers. numbers ≡ numbers_from (λ (atom : GroundAtom). has_key named.now (ground_predicate symbols.now atom)) 0 atoms.now) }
{
    let mut numbers = Items::new(alloc);
    for (number, atom) in atoms.iter().enumerate() {
        let is = is_named(named, symbols, atom);
        push_number(&mut numbers, number as u32, is)?;
    }
    Ok(numbers)
}

/// Which of these atoms the statements show. Predicates are hashed by this key, which changes no answer, and so each atom's is found
/// without a look at the others. More than 4294967295 atoms count as want of memory.
pub fn show_of(
    alloc: Global,
    key: HashKey,
    statements: &[Statement],
    symbols: &Symbols,
    atoms: &[GroundAtom],
) -> Result<Show, Memory>
    requires { IsTrue (list_all (atom_in_range symbols.now) atoms.now) }
    ensures { IfOk result (λ show. show ≡ show_by statements.now symbols.now atoms.now) }
{
    if !has_show(statements) {
        return Ok(Show::All);
    }
    if atoms.len() > u32::MAX as usize {
        return Err(Memory);
    }
    let named = all_named(alloc, key, statements)?;
    let numbers = named_numbers(alloc, &named, symbols, atoms)?;
    Ok(Show::Only(numbers))
}
