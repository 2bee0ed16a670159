//! The engine.

ghost use Rattle.std.specs.Prelude.{◌≡◌, ℕ, ◌+◌, ◌<◌, ◌≢◌, [], ◌++◌, IfOk, OnOk, OnErr};
ghost use Rattle.normal_program.specs.ModuleClauses.{clauses_of};
ghost use Rattle.step_module.specs.Modules.{module_of};
ghost use Rattle.cdcl_search.specs.Searches.{kept_of_module};
ghost use Rattle.tel_engine.specs.Engines.{IsSmall};
ghost use Rattle.tel_engine.specs.Lists.{Lists, Keeps};

use crate::ends::{EngineFault, LengthEnd};
use crate::printing::print_listing;
use crate::stages::Stage;
use atom_space::AtomSpace;
use cdcl_search::Search;
use completion::clauses;
use std::alloc::Global;
use std::marker::Model;
use step_module::module;
use tel_base::{Memory, Sink};
use tel_rule::Template;
use trace_list::Listing;
use unfounded_sets::Founded;

/// A program that is solved length by length, by one conflict-driven search that keeps its clauses from each length to the next.
///
/// Contracts see the program, the greatest length and the one that it is at, the clauses that the search holds with the lengths
/// at which they came, and what may be done next.
#[derive(Drop)]
pub struct Engine<F: Drop> {
    alloc: Global,
    template: Template,
    space: AtomSpace,
    search: Search<F>,
    length: u32,
    stage: Stage,
    // an `extend` has answered want of memory, which may leave the search with more variables than its length has
    wide: bool,
}

impl<F: Drop> Model for Engine<F> {
    ghost use Rattle.tel_engine.specs.Engines.{View, view_of, IsEngine};

    ghost Value = { View };

    ghost view = { λ engine. view_of engine.template engine.space engine.search engine.length engine.stage };

    ghost invariant = { λ engine. IsEngine engine.template engine.space engine.search engine.length engine.stage engine.wide };
}

impl<F: Founded + Drop> Engine<F> {
    /// An engine at length 0, for lengths up to `greatest`. It takes no memory yet.
    ///
    /// The atoms, nodes and instances of the template and one more make the variables of a state, and all states of the greatest
    /// length have at most 4194304 of them.
    pub fn new(alloc: Global, template: Template, greatest: u32, founded: F) -> Engine<F>
        requires { IsSmall template greatest }
        ensures template { result.template ≡ template }
        ensures greatest { result.greatest ≡ greatest }
        ensures length { result.length ≡ 0 }
        ensures kept { result.kept ≡ [] }
        ensures stage { result.stage ≡ Stage.Listed }
    {
        let space = AtomSpace {
            atoms: template.atoms.len() as u32,
            nodes: template.nodes.len() as u32,
            bodies: template.instances.len() as u32,
            greatest,
        };
        Engine {
            alloc,
            template,
            space,
            search: Search::new(alloc, founded),
            length: 0,
            stage: Stage::Listed,
            wide: false,
        }
    }

    /// The length that it is at: how many states its traces have.
    pub fn length(&self) -> u32
        ensures { result ≡ self.now.length }
    {
        self.length
    }

    /// Goes on to the next length: adds the module of its last state, with the clauses of the module. On want of memory the
    /// engine is as before, but from then on its listings may answer want of memory, too.
    pub fn extend(&mut self) -> Result<(), Memory>
        requires within { self.old.length < self.old.greatest }
        requires usable { self.old.stage ≢ Stage.Lost }
        ensures template { self.new.template ≡ self.old.template }
        ensures greatest { self.new.greatest ≡ self.old.greatest }
        ensures length { OnOk result (self.new.length ≡ self.old.length + 1) }
        ensures kept { OnOk result (self.new.kept ≡ self.old.kept ++ kept_of_module (self.old.length + 1) (clauses_of (module_of self.old.template self.old.length))) }
        ensures stage { OnOk result (self.new.stage ≡ Stage.Extended) }
        ensures err { OnErr result (self.new ≡ self.old) }
    {
        let step = module(self.alloc, &self.template, &self.space, self.length)?;
        let clauses = clauses(self.alloc, &step)?;
        let wide = self.wide;
        self.wide = true;
        self.search.extend(&step, clauses.as_slice())?;
        self.wide = wide;
        self.length += 1;
        self.stage = Stage::Extended;
        Ok(())
    }

    /// Lists the traces of its length and prints them to `out`: the header of the length, each trace before the next one is looked
    /// for, and the closing line. It stops after `models` traces, of which 0 asks for all, and where a further clause would be the
    /// first above the budget of `conflicts` loop clauses and learnt ones.
    ///
    /// Nothing is written to `log`. After an error some front of the lines is written, and the engine isn't used again.
    pub fn list_into<O: Sink, L: Sink>(
        &mut self,
        out: &mut O,
        log: &mut L,
        models: u64,
        conflicts: Option<u64>,
    ) -> Result<LengthEnd, EngineFault>
        requires { self.old.stage ≡ Stage.Extended }
        ensures template { self.new.template ≡ self.old.template }
        ensures greatest { self.new.greatest ≡ self.old.greatest }
        ensures length { self.new.length ≡ self.old.length }
        ensures keeps { IfOk result (λ end. Keeps self.old.template self.old.length conflicts end.how self.old.kept self.new.kept) }
        ensures stage { OnOk result (self.new.stage ≡ Stage.Listed) }
        ensures lists { Lists self.old.template self.old.length models conflicts result (O.bytes out.old) (O.bytes out.new) (O.faults out.old) (O.faults out.new) }
        ensures log { log.new ≡ log.old }
    {
        self.stage = Stage::Lost;
        if self.wide {
            return Err(EngineFault::Memory);
        }
        let mut listing = Listing::begin(
            self.alloc,
            &mut self.search,
            self.space,
            self.length,
            conflicts,
        );
        match print_listing(
            self.alloc,
            &mut listing,
            &mut self.search,
            &self.template,
            self.length,
            models,
            out,
        ) {
            Ok(end) => {
                self.stage = Stage::Listed;
                Ok(end)
            }
            Err(fault) => Err(fault),
        }
    }
}
