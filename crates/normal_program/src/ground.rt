ghost use Rattle.std.specs.Prelude.{◌≡◌, ◌++◌, ◌∷◌, [], OnOk, OnErr, slice_get};
ghost use Rattle.std.specs.Option.{option_copied};
ghost use Rattle.normal_program.specs.Grounds.{all_rules, parts_of, rules_with, is_head};

use crate::copies::{copy_parts, rules_of_module};
use crate::marks::{make_room, mark_atoms, mark_nodes};
use crate::modules::{ModuleParts, StepModule};
use crate::rows::add_ids;
use crate::rules::NRule;
use sqlite_items::Items;
use std::alloc::Global;
use std::marker::Model;
use tel_base::Memory;

/// The rules of the modules that were added, in order, with the rules of each head at hand. Contracts
/// see the list of the rules, and for each module what it has besides.
#[derive(Drop)]
pub struct Ground {
    alloc: Global,
    rules: Vec<NRule>,
    modules: Vec<ModuleParts>,
    /// For each variable the rules with this head, rising.
    rows: Vec<Items<usize>>,
    /// For each variable whether it is of an atom or a node of a module.
    marks: Vec<bool>,
}

impl Model for Ground {
    ghost use Rattle.normal_program.specs.Grounds.{Layers, IsIndexed, layers_of};

    ghost Value = { Layers };

    ghost view = { λ ground. layers_of ground.rules.items ground.modules.items };

    ghost invariant = { λ ground. IsIndexed ground.rules.items ground.modules.items ground.rows.items ground.marks.items };
}

impl Ground {
    /// No module yet.
    pub fn new(alloc: Global) -> Ground
        ensures rules { result.rules ≡ [] }
        ensures modules { result.modules ≡ [] }
    {
        Ground {
            alloc,
            rules: Vec::new(alloc),
            modules: Vec::new(alloc),
            rows: Vec::new(alloc),
            marks: Vec::new(alloc),
        }
    }

    /// Adds a module: its rules, and then those of its nodes. Want of memory changes nothing.
    ///
    /// It takes time linear in the module, and in how far the variables of its heads go past those
    /// before.
    pub fn add(&mut self, step: &StepModule) -> Result<(), Memory>
        ensures rules { OnOk result (self.new.rules ≡ self.old.rules ++ all_rules step.now) }
        ensures modules { OnOk result (self.new.modules ≡ self.old.modules ++ parts_of step.now ∷ []) }
        ensures err { OnErr result (self.new ≡ self.old) }
    {
        let mut rules = rules_of_module(self.alloc, step)?;
        let parts = copy_parts(self.alloc, step)?;
        make_room(
            &mut self.marks,
            step.atoms.as_slice(),
            step.nodes.as_slice(),
        )?;
        self.modules.reserve(1)?;
        self.rules.reserve(rules.len())?;
        add_ids(
            self.alloc,
            &mut self.rows,
            rules.as_slice(),
            self.rules.len(),
        )?;
        let _ = self.rules.append(&mut rules);
        let _ = self.modules.push(parts);
        mark_atoms(&mut self.marks, step.atoms.as_slice());
        mark_nodes(&mut self.marks, step.nodes.as_slice());
        Ok(())
    }

    /// The rule with a number, from 0 in the order of adding.
    pub fn rule(&self, id: usize) -> Option<&NRule>
        ensures { option_copied result ≡ slice_get self.now.rules id }
    {
        self.rules.get(id)
    }

    /// All rules, by their numbers.
    pub fn rules(&self) -> &[NRule]
        ensures { result.now ≡ self.now.rules }
    {
        self.rules.as_slice()
    }

    /// The rules with this head, rising.
    pub fn bodies_of(&self, var: u32) -> &[usize]
        ensures { result.now ≡ rules_with self.now.rules var }
    {
        match self.rows.get(var as usize) {
            Some(row) => row.as_slice(),
            None => &[],
        }
    }

    /// Whether a module has the variable as one of its atoms or of its nodes.
    pub fn is_head(&self, var: u32) -> bool
        ensures { result ≡ is_head self.now.modules var }
    {
        self.marks.get(var as usize).copied().unwrap_or(false)
    }
}
