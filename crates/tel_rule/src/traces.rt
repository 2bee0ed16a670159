use sqlite_items::Items;
use std::marker::Model;

/// A trace: its states from 0 on, each the numbers of the atoms that are true there, which strictly
/// rise. Contracts see it as the list of its states.
#[derive(Drop)]
pub struct Trace {
    pub states: Items<Items<u32>>,
}

impl Model for Trace {
    ghost use Rattle.std.specs.Prelude.{List, ℕ, IsTrue};
    ghost use Rattle.std.specs.List.{list_all};
    ghost use Rattle.tel_rule.specs.Rising.{numbers_rise};

    ghost Value = { List (List ℕ) };

    ghost view = { λ trace. trace.states };

    ghost invariant = { λ trace. IsTrue (list_all numbers_rise trace.states) };
}
