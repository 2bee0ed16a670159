//! Names and strings under numbers.
ghost use Rattle.std.specs.Prelude.{◌≡◌, ◌+◌, ◌-◌, ◌^◌, ◌<◌, ◌≤◌, [], length, Some, IsTrue, IfOk, OnOk, OnErr};
ghost use Rattle.tel_term.specs.Order.{value_in_range, value_cmp};
ghost use Rattle.tel_term.specs.Symbols.{IsTable, is_symbol_of, with_term, value_of, term_of};

use crate::order::compare;
use crate::terms::{Term, Value};
use indexmap::IndexSet;
use std::alloc::Global;
use std::cmp::Ordering;
use std::marker::Model;
use tel_base::{HashKey, Memory};

/// The names and strings that were asked for, numbered from 0 in the order in which they were first
/// seen. Contracts see them as their list, in this order. The key of its hashes changes no answer.
#[derive(Drop)]
pub struct Symbols {
    terms: IndexSet<Term, HashKey>,
}

impl Model for Symbols {
    ghost use Rattle.std.specs.Prelude.{List};
    ghost use Rattle.tel_term.specs.declared.terms.Term.{Term};
    ghost use Rattle.tel_term.specs.Symbols.{IsTable};

    ghost Value = { List Term };

    ghost view = { λ symbols. symbols.terms.keys };

    ghost invariant = { λ symbols. IsTable symbols.terms.keys };
}

impl Symbols {
    /// The empty table, for names that nobody chose to collide. It takes no memory.
    pub fn new(alloc: Global) -> Symbols
        ensures { result ≡ [] }
    {
        Symbols::keyed(alloc, HashKey::of(&[]))
    }

    /// The empty table, whose names are hashed by this key. It takes no memory.
    pub fn keyed(alloc: Global, key: HashKey) -> Symbols
        ensures { result ≡ [] }
    {
        Symbols {
            terms: IndexSet::with_hasher(alloc, key),
        }
    }

    /// How many names and strings have a number.
    pub fn len(&self) -> u32
        ensures count { result ≡ length self.now }
        ensures table { IsTable self.now }
    {
        self.terms.len() as u32
    }

    /// The value of a term: a number stands for itself, and a name or a string gets its number, a
    /// new one the next number. Want of memory changes nothing.
    pub fn value(&mut self, term: Term) -> Result<Value, Memory>
        requires { length self.old < 2 ^ 32 - 1 }
        ensures value { IfOk result (λ value. value ≡ value_of self.old term) }
        ensures table { OnOk result (self.new ≡ with_term self.old term) }
        ensures room { length self.new ≤ length self.old + 1 }
        ensures err { OnErr result (self.new ≡ self.old) }
    {
        if let Term::Num(number) = term {
            return Ok(Value::Num(number));
        }
        let (place, _) = match self.terms.insert_full(term) {
            Ok(found) => found,
            Err(_) => return Err(Memory),
        };
        Ok(Value::Sym(place as u32))
    }

    /// The name or string that this value stands for, which is a symbol of this table.
    pub fn term(&self, value: Value) -> &Term
        requires { IsTrue (is_symbol_of self.now value) }
        ensures { term_of self.now value ≡ Some result.now }
    {
        match value {
            Value::Sym(place) => &self.terms.as_slice()[place as usize],
            Value::Num(_) => unreachable!(),
        }
    }

    /// How the term of a value stands to that of another: numbers before names before strings, numbers
    /// by value, names and strings by their bytes, a prefix first.
    #[tactic(auto, using(crate::proofs::Meant::meant))]
    pub fn cmp(&self, a: Value, b: Value) -> Ordering
        requires first { IsTrue (value_in_range self.now a) }
        requires second { IsTrue (value_in_range self.now b) }
        ensures { result ≡ value_cmp self.now a b }
    {
        match a {
            Value::Num(m) => match b {
                Value::Num(n) => m.cmp(&n),
                Value::Sym(_) => compare(&Term::Num(m), self.term(b)),
            },
            Value::Sym(_) => match b {
                Value::Num(n) => compare(self.term(a), &Term::Num(n)),
                Value::Sym(_) => compare(self.term(a), self.term(b)),
            },
        }
    }
}
