//! A program, and the search at its lengths.

ghost use Rattle.std.specs.Prelude.{◌≡◌, ◌-◌, ◌<◌, ◌≤◌, is_some, IsTrue, OnOk};
ghost use Rattle.atom_space.specs.Numbers.{end_at};
ghost use Rattle.formula_unfold.specs.Nodes.{counts_of};
ghost use Rattle.search_rows.specs.declared.templates.TheConstants.{GREATEST};

use crate::templates::{GREATEST, space_of, template_of};
use anyhow::{Result, bail, ensure};
use atom_space::AtomSpace;
use cdcl_search::{Search, Step, vars_for};
use clause_store::ClauseId;
use completion::clauses;
use horizon_external::end_var;
use std::alloc::Global;
use step_module::module;
use tel_rule::Template;
use unfounded_sets::LeastScan;

/// More variables than a module here needs.
const MANY: u64 = 1000;

/// Adds the last module of a length.
#[tactic(auto, using(crate::proofs::Fits::clauses_fit))]
fn extend(
    alloc: Global,
    search: &mut Search<LeastScan>,
    template: &Template,
    space: &AtomSpace,
    n: u32,
) -> Result<()>
    requires some { 0 < n }
    requires within { n ≤ space.now.greatest }
    requires counts { space.now.counts ≡ counts_of template.now }
    ensures { OnOk result (end_at space.now.counts (n - 1) < search.new.vars) }
{
    let step = module(alloc, template, space, n - 1)?;
    let clauses = clauses(alloc, &step)?;
    if vars_for(&step, clauses.as_slice()) >= MANY {
        bail!("too many variables");
    }
    if step.t != n - 1 || step.end != end_var(space, n - 1) {
        bail!("another module");
    }
    search.extend(&step, clauses.as_slice())?;
    Ok(())
}

/// A program with the variables of its states, and the search over the modules that were added.
#[derive(Drop)]
pub struct Run {
    pub template: Template,
    pub space: AtomSpace,
    pub search: Search<LeastScan>,
    ghost counts: { space.counts ≡ counts_of template },
    ghost greatest: { space.greatest ≡ GREATEST },
}

impl Run {
    /// The program of a text whose statements are plain, with no module.
    pub fn new(alloc: Global, text: &str) -> Result<Run> {
        let template = template_of(alloc, text)?;
        let space = space_of(&template)?;
        Ok(Run {
            template,
            space,
            search: Search::new(alloc, LeastScan::new(alloc)),
        })
    }

    /// Adds the last module of a length, and begins the length.
    pub fn begin(&mut self, alloc: Global, n: u32) -> Result<()>
        requires some { 0 < n }
        requires within { n ≤ GREATEST }
        ensures { OnOk result (IsTrue (is_some self.new.search.begun)) }
    {
        extend(alloc, &mut self.search, &self.template, &self.space, n)?;
        self.search.begin(self.space, n);
        Ok(())
    }

    /// The next answer.
    #[tactic(auto, using(crate::proofs::StillBegun::still_begun))]
    pub fn next(&mut self, budget: Option<u64>) -> Result<Step>
        requires { IsTrue (is_some self.old.search.begun) }
        ensures { OnOk result (IsTrue (is_some self.new.search.begun)) }
    {
        let step = self.search.next(budget)?;
        Ok(step)
    }

    /// Blocks what was found.
    pub fn block(&mut self) -> Result<ClauseId>
        requires { IsTrue (is_some self.old.search.begun) }
        ensures { OnOk result (IsTrue (is_some self.new.search.begun)) }
    {
        ensure!(self.search.trail().level() > 0, "the end isn't decided");
        let id = self.search.block()?;
        Ok(id)
    }
}
