//! The sort of bindings.
ghost use Rattle.std.specs.Prelude.{◌≡◌, ◌↔◌, List, OnOk, OnErr, IsTrue};
ghost use Rattle.tel_base.specs.Members.{In};
ghost use Rattle.tel_term.specs.declared.terms.Value.{Value as TermValue};
ghost use Rattle.tel_rule.specs.Rising.{rises};
ghost use Rattle.join_plans.specs.Once.{IsOnce};
ghost use Rattle.live_instances.specs.Bindings.{binding_lt};
ghost use Rattle.binding_sort.specs.Sorting.{AreOfTerms};

use crate::comparing::compare_bindings;
use sqlite_items::Items;
use tel_base::Memory;
use tel_term::{Symbols, Value};

/// Puts bindings, of which each stands once, into their order. Want of memory changes nothing.
pub fn sort_bindings(symbols: &Symbols, bindings: &mut Vec<Items<Value>>) -> Result<(), Memory>
    requires once { IsOnce bindings.old.items }
    requires terms { AreOfTerms symbols.now bindings.old.items }
    ensures rise { OnOk result (IsTrue (rises (binding_lt symbols.now) bindings.new.items)) }
    ensures members { (binding : List TermValue) → In binding bindings.new.items ↔ In binding bindings.old.items }
    ensures err { OnErr result (bindings.new.items ≡ bindings.old.items) }
{
    let _symbols = symbols.len();
    match bindings.sort_by(|a, b| compare_bindings(symbols, a.as_slice(), b.as_slice())) {
        Ok(()) => Ok(()),
        Err(_) => Err(Memory),
    }
}
