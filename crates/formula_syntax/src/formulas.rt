ghost use Rattle.std.specs.Prelude.{◌≡◌, ◌++◌, IfOk};
ghost use Rattle.tel_rule.specs.declared.formulas.Formula.{Formula};
ghost use Rattle.tel_rule.specs.declared.formulas.ManyOp.TheVariants as manies;
ghost use Rattle.grammar_laws.specs.Steps.{Stuck, made, one, both, either, each, too_deep, passes};
ghost use Rattle.formula_syntax.specs.Grammar as grammar;
ghost use Rattle.formula_syntax.specs.Reading as readers;
ghost use Rattle.formula_syntax.specs.Given.{Reads, Onward, why_of};

use crate::marks::Mark;
use crate::reading::{Reading, Stop};
use sqlite_items::{Boxed, Items};
use std::alloc::{AllocError, Global};
use tel_rule::{BinaryOp, Formula, ManyOp};

/// Two formulas with an operator between them.
fn binary(
    alloc: Global,
    first: Formula,
    op: BinaryOp,
    second: Formula,
) -> Result<Formula, AllocError>
    ensures { IfOk result (λ formula. formula ≡ Formula.Binary op first second) }
{
    let first = Boxed::new(alloc, first)?;
    let second = Boxed::new(alloc, second)?;
    Ok(Formula::Binary(op, first, second))
}

#[tactic(auto, using(crate::proofs::Onwards::onward_then))]
impl<'t, 'b> Reading<'t, 'b> {
    /// A constant or an atom.
    fn flat(&mut self, levels: u32) -> Result<Formula, Stop>
        ensures reads { Reads (readers.read_flat levels self.old) result self.new }
        ensures onward { Onward self.old self.new }
    {
        if !self.take(Mark::Ampersand) {
            let atom = self.atom(levels)?;
            return Ok(Formula::Atom(atom));
        }
        match self.const_op() {
            Some(op) => Ok(Formula::Const(op)),
            None => Err(Stop::Unexpected),
        }
    }

    /// Why no unary formula stands here, where it may open no level.
    fn shut_unary(&self) -> Stop
        ensures { too_deep {A = Formula} readers.opens_unary self.now ≡ Stuck (why_of result) self.now.words }
    {
        if self.opens_unary() {
            Stop::Deep
        } else {
            Stop::Unexpected
        }
    }

    /// A unary formula, where at most so many levels may be opened: a constant, an atom, or one of
    /// those that open a level.
    #[cycle(formula)]
    fn unary(&mut self, levels: u32) -> Result<Formula, Stop>
        ensures reads { Reads (readers.read_unary levels self.old) result self.new }
        ensures onward { Onward self.old self.new }
    {
        if self.starts_flat() {
            return self.flat(levels);
        }
        if levels == 0 {
            return Err(self.shut_unary());
        }
        self.nested_unary(levels - 1)
    }

    /// A unary formula that opens a level, in which at most so many more may be opened.
    #[cycle(formula)]
    fn nested_unary(&mut self, levels: u32) -> Result<Formula, Stop>
        ensures reads { Reads (either (passes grammar.prefix_op) (readers.read_prefixed (readers.read_unary levels))
            (readers.read_bracketed (readers.read_formula levels)) self.old) result self.new }
        ensures onward { Onward self.old self.new }
    {
        match self.prefix_op() {
            Some(op) => {
                let inner = self.unary(levels)?;
                Ok(Formula::Unary(op, Boxed::new(self.alloc, inner)?))
            }
            None => self.bracketed_formula(levels),
        }
    }

    /// A formula in brackets.
    #[cycle(formula)]
    fn bracketed_formula(&mut self, levels: u32) -> Result<Formula, Stop>
        ensures reads { Reads (readers.read_bracketed (readers.read_formula levels) self.old) result self.new }
        ensures onward { Onward self.old self.new }
    {
        if !self.take(Mark::Open) {
            return Err(Stop::Unexpected);
        }
        let inner = self.formula(levels)?;
        self.expect(Mark::Close)?;
        Ok(inner)
    }

    /// A unary formula, or two with a temporal operator between them.
    #[cycle(formula)]
    fn pair(&mut self, levels: u32) -> Result<Formula, Stop>
        ensures reads { Reads (readers.read_pair (readers.read_unary levels) self.old) result self.new }
        ensures onward { Onward self.old self.new }
    {
        let first = self.unary(levels)?;
        match self.pair_op() {
            Some(op) => {
                let second = self.unary(levels)?;
                Ok(binary(self.alloc, first, op, second)?)
            }
            None => Ok(first),
        }
    }

    /// More formulas of a conjunction behind these, each behind a `&`.
    #[cycle(formula)]
    fn conjuncts(&mut self, levels: u32, mut all: Items<Formula>) -> Result<Items<Formula>, Stop>
        ensures reads { Reads (made (λ more. all ++ grammar.behind_all more)
            (each (passes (grammar.sign Mark.Ampersand)) (both (one (grammar.sign Mark.Ampersand)) (readers.read_pair (readers.read_unary levels)))) self.old) result self.new }
        ensures onward { Onward self.old self.new }
    {
        for _turn in 0..self.left() {
            if !self.take(Mark::Ampersand) {
                return Ok(all);
            }
            let conjunct = self.pair(levels)?;
            all.push(conjunct)?;
        }
        Ok(all)
    }

    /// Pairs with `&` between them.
    #[cycle(formula)]
    fn conjunction(&mut self, levels: u32) -> Result<Formula, Stop>
        ensures reads { Reads (readers.read_and (readers.read_pair (readers.read_unary levels)) self.old) result self.new }
        ensures onward { Onward self.old self.new }
    {
        let first = self.pair(levels)?;
        if !self.sees(Mark::Ampersand) {
            return Ok(first);
        }
        let mut all = Items::new(self.alloc);
        all.push(first)?;
        let whole = self.conjuncts(levels, all)?;
        Ok(Formula::Many(ManyOp::And, whole))
    }

    /// More formulas of a disjunction behind these, each behind a `|`.
    #[cycle(formula)]
    fn disjuncts(&mut self, levels: u32, mut all: Items<Formula>) -> Result<Items<Formula>, Stop>
        ensures reads { Reads (made (λ more. all ++ grammar.behind_all more)
            (each (passes (grammar.sign Mark.Bar)) (both (one (grammar.sign Mark.Bar)) (readers.read_and (readers.read_pair (readers.read_unary levels))))) self.old) result self.new }
        ensures onward { Onward self.old self.new }
    {
        for _turn in 0..self.left() {
            if !self.take(Mark::Bar) {
                return Ok(all);
            }
            let disjunct = self.conjunction(levels)?;
            all.push(disjunct)?;
        }
        Ok(all)
    }

    /// Conjunctions with `|` between them.
    #[cycle(formula)]
    fn disjunction(&mut self, levels: u32) -> Result<Formula, Stop>
        ensures reads { Reads (readers.read_or (readers.read_and (readers.read_pair (readers.read_unary levels))) self.old) result self.new }
        ensures onward { Onward self.old self.new }
    {
        let first = self.conjunction(levels)?;
        if !self.sees(Mark::Bar) {
            return Ok(first);
        }
        let mut all = Items::new(self.alloc);
        all.push(first)?;
        let whole = self.disjuncts(levels, all)?;
        Ok(Formula::Many(ManyOp::Or, whole))
    }

    /// A formula, where at most so many levels may be opened: a disjunction, or two with an arrow
    /// between them.
    #[cycle(formula)]
    pub fn formula(&mut self, levels: u32) -> Result<Formula, Stop>
        ensures reads { Reads (readers.read_formula levels self.old) result self.new }
        ensures onward { Onward self.old self.new }
    {
        let first = self.disjunction(levels)?;
        match self.arrow_op() {
            Some(op) => {
                let second = self.disjunction(levels)?;
                Ok(binary(self.alloc, first, op, second)?)
            }
            None => Ok(first),
        }
    }
}
