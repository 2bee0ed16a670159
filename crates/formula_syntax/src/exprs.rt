ghost use Rattle.std.specs.Prelude.{◌≡◌, IfOk, ◌∷◌};
ghost use Rattle.tel_term.specs.declared.exprs.Expr.{Expr};
ghost use Rattle.grammar_laws.specs.Steps.{Stuck, one, both, either, each, too_deep, passes};
ghost use Rattle.formula_syntax.specs.Grammar as grammar;
ghost use Rattle.formula_syntax.specs.Reading as readers;
ghost use Rattle.formula_syntax.specs.Given.{Reads, Onward, why_of};

use crate::marks::Mark;
use crate::reading::{Reading, Stop};
use sqlite_items::{Boxed, Items};
use std::alloc::{AllocError, Global};
use tel_term::{Expr, ProductOp, SumOp};

/// A chain of products, or its first operand alone.
fn product_of(
    alloc: Global,
    first: Expr,
    more: Items<(ProductOp, Expr)>,
) -> Result<Expr, AllocError>
    ensures { IfOk result (λ expr. expr ≡ grammar.product_of (first, more)) }
{
    if more.is_empty() {
        return Ok(first);
    }
    Ok(Expr::Product(Boxed::new(alloc, first)?, more))
}

/// A chain of sums, or its first operand alone.
fn sum_of(alloc: Global, first: Expr, more: Items<(SumOp, Expr)>) -> Result<Expr, AllocError>
    ensures { IfOk result (λ expr. expr ≡ grammar.sum_of (first, more)) }
{
    if more.is_empty() {
        return Ok(first);
    }
    Ok(Expr::Sum(Boxed::new(alloc, first)?, more))
}

#[tactic(auto, using(crate::proofs::Onwards::onward_then))]
impl<'t, 'b> Reading<'t, 'b> {
    /// Why no value stands here, where it may open no level.
    fn shut_value(&self) -> Stop
        ensures { too_deep {A = Expr} readers.opens_value self.now ≡ Stuck (why_of result) self.now.words }
    {
        if self.opens_value() {
            Stop::Deep
        } else {
            Stop::Unexpected
        }
    }

    /// A value, where at most so many levels may be opened: a number, a name, a string, a variable, or
    /// one of those that open a level.
    #[cycle(expr)]
    fn value(&mut self, levels: u32) -> Result<Expr, Stop>
        ensures reads { Reads (readers.read_value levels self.old) result self.new }
        ensures onward { Onward self.old self.new }
    {
        match self.leaf()? {
            Some(leaf) => return Ok(leaf),
            None => {}
        }
        if levels == 0 {
            return Err(self.shut_value());
        }
        self.nested_value(levels - 1)
    }

    /// A value that opens a level, in which at most so many more may be opened.
    #[cycle(expr)]
    fn nested_value(&mut self, levels: u32) -> Result<Expr, Stop>
        ensures reads { Reads (either (passes (grammar.sign Mark.Minus)) (readers.read_negative (readers.read_value levels))
            (readers.read_bracketed (readers.read_expr levels)) self.old) result self.new }
        ensures onward { Onward self.old self.new }
    {
        if self.take(Mark::Minus) {
            let operand = self.value(levels)?;
            return Ok(Expr::Minus(Boxed::new(self.alloc, operand)?));
        }
        self.bracketed_expr(levels)
    }

    /// An expression in brackets.
    #[cycle(expr)]
    fn bracketed_expr(&mut self, levels: u32) -> Result<Expr, Stop>
        ensures reads { Reads (readers.read_bracketed (readers.read_expr levels) self.old) result self.new }
        ensures onward { Onward self.old self.new }
    {
        if !self.take(Mark::Open) {
            return Err(Stop::Unexpected);
        }
        let inner = self.expr(levels)?;
        self.expect(Mark::Close)?;
        Ok(inner)
    }

    /// The other operands of a chain of products, each behind its operator.
    #[cycle(expr)]
    fn factors(&mut self, levels: u32) -> Result<Items<(ProductOp, Expr)>, Stop>
        ensures reads { Reads (each (passes grammar.product_op) (both (one grammar.product_op) (readers.read_value levels)) self.old) result self.new }
        ensures onward { Onward self.old self.new }
    {
        let mut factors = Items::new(self.alloc);
        for _turn in 0..self.left() {
            match self.product_op() {
                Some(op) => {
                    let factor = self.value(levels)?;
                    factors.push((op, factor))?;
                }
                None => return Ok(factors),
            }
        }
        Ok(factors)
    }

    /// Values with operators of products between them.
    #[cycle(expr)]
    fn product(&mut self, levels: u32) -> Result<Expr, Stop>
        ensures reads { Reads (readers.read_product (readers.read_value levels) self.old) result self.new }
        ensures onward { Onward self.old self.new }
    {
        let first = self.value(levels)?;
        let more = self.factors(levels)?;
        Ok(product_of(self.alloc, first, more)?)
    }

    /// The other operands of a chain of sums, each behind its operator.
    #[cycle(expr)]
    fn summands(&mut self, levels: u32) -> Result<Items<(SumOp, Expr)>, Stop>
        ensures reads { Reads (each (passes grammar.sum_op) (both (one grammar.sum_op) (readers.read_product (readers.read_value levels))) self.old) result self.new }
        ensures onward { Onward self.old self.new }
    {
        let mut summands = Items::new(self.alloc);
        for _turn in 0..self.left() {
            match self.sum_op() {
                Some(op) => {
                    let summand = self.product(levels)?;
                    summands.push((op, summand))?;
                }
                None => return Ok(summands),
            }
        }
        Ok(summands)
    }

    /// An expression, where at most so many levels may be opened: products with operators of sums
    /// between them.
    #[cycle(expr)]
    pub fn expr(&mut self, levels: u32) -> Result<Expr, Stop>
        ensures reads { Reads (readers.read_expr levels self.old) result self.new }
        ensures onward { Onward self.old self.new }
    {
        let first = self.product(levels)?;
        let more = self.summands(levels)?;
        Ok(sum_of(self.alloc, first, more)?)
    }
}
