//! The expressions of a rule that have an operation.
ghost use Rattle.std.specs.Prelude.{◌≡◌, ◌++◌, ◌∷◌, [], map, IfOk, OnOk};
ghost use Rattle.live_instances.specs.Instances.{head_exprs, item_exprs, rule_exprs};
ghost use Rattle.rule_goals.specs.Laws.{body_exprs};
ghost use Rattle.range_faults.specs.Operations.{operates, operation_of, operations, formula_exprs, joined, all_said};

use std::alloc::Global;
use tel_base::Memory;
use tel_rule::{Formula, Head, LitItem, Literal};
use tel_term::Expr;

/// An expression that is no value or variable alone, so that it may have a fault.
#[derive(Clone, Copy)]
pub struct Operation<'a> {
    pub expr: &'a Expr,
}

/// Whether an expression is an operation.
fn operates(expr: &Expr) -> bool
    ensures { result ≡ operates expr.now }
{
    match expr {
        Expr::Value(_) => false,
        Expr::Var(_) => false,
        Expr::Minus(_) => true,
        Expr::Sum(_, _) => true,
        Expr::Product(_, _) => true,
    }
}

/// Adds an operation.
#[tactic(auto, using(crate::proofs::Pushed::one_operation))]
fn push_operation<'a>(found: &mut Vec<Operation<'a>>, expr: &'a Expr) -> Result<(), Memory>
    ensures { OnOk result (all_said found.new.items ≡ all_said found.old.items ++ expr.now ∷ []) }
{
    found.push(Operation { expr })?;
    Ok(())
}

/// Adds an expression, where it is an operation.
fn add_expr<'a>(found: &mut Vec<Operation<'a>>, expr: &'a Expr) -> Result<(), Memory>
    ensures { OnOk result (all_said found.new.items ≡ all_said found.old.items ++ operation_of expr.now) }
{
    if !operates(expr) {
        return Ok(());
    }
    push_operation(found, expr)?;
    Ok(())
}

/// Adds those of some expressions that are operations.
fn add_exprs<'a>(found: &mut Vec<Operation<'a>>, exprs: &'a [Expr]) -> Result<(), Memory>
    ensures { OnOk result (all_said found.new.items ≡ all_said found.old.items ++ operations exprs.now) }
{
    for expr in exprs {
        add_expr(found, expr)?;
    }
    Ok(())
}

/// Adds the operations of a formula.
#[tactic(auto, using(crate::proofs::Pushed::with_both))]
#[cycle(formulas)]
fn add_formula<'a>(found: &mut Vec<Operation<'a>>, formula: &'a Formula) -> Result<(), Memory>
    ensures { OnOk result (all_said found.new.items ≡ all_said found.old.items ++ operations (formula_exprs formula.now)) }
{
    match formula {
        Formula::Const(_) => Ok(()),
        Formula::Atom(atom) => {
            add_exprs(found, atom.args.as_slice())?;
            Ok(())
        }
        Formula::Unary(_, operand) => {
            add_formula(found, operand.get())?;
            Ok(())
        }
        Formula::Binary(_, left, right) => {
            add_formula(found, left.get())?;
            add_formula(found, right.get())?;
            Ok(())
        }
        Formula::Many(_, operands) => {
            add_formulas(found, operands.as_slice())?;
            Ok(())
        }
    }
}

/// Adds the operations of formulas.
#[tactic(auto, using(crate::proofs::Pushed::with_both))]
#[cycle(formulas)]
fn add_formulas<'a>(found: &mut Vec<Operation<'a>>, formulas: &'a [Formula]) -> Result<(), Memory>
    ensures { OnOk result (all_said found.new.items ≡ all_said found.old.items ++ operations (joined (map formula_exprs formulas.now))) }
{
    for formula in formulas {
        add_formula(found, formula)?;
    }
    Ok(())
}

/// Adds the operations of a head.
fn add_head<'a>(found: &mut Vec<Operation<'a>>, head: &'a Head) -> Result<(), Memory>
    ensures { OnOk result (all_said found.new.items ≡ all_said found.old.items ++ operations (head_exprs head.now)) }
{
    match head {
        Head::Normal(atom) => {
            add_exprs(found, atom.args.as_slice())?;
            Ok(())
        }
        Head::Choice(atom) => {
            add_exprs(found, atom.args.as_slice())?;
            Ok(())
        }
        Head::None => Ok(()),
    }
}

/// Adds the operations of what a literal speaks of.
fn add_item<'a>(found: &mut Vec<Operation<'a>>, item: &'a LitItem) -> Result<(), Memory>
    ensures { OnOk result (all_said found.new.items ≡ all_said found.old.items ++ operations (item_exprs item.now)) }
{
    match item {
        LitItem::Atom(atom) => {
            add_exprs(found, atom.args.as_slice())?;
            Ok(())
        }
        LitItem::Tel(formula) => {
            add_formula(found, formula)?;
            Ok(())
        }
        LitItem::Compare(_, left, right) => {
            add_expr(found, left)?;
            add_expr(found, right)?;
            Ok(())
        }
    }
}

/// Adds the operations of a body.
#[tactic(auto, using(crate::proofs::Pushed::with_both))]
fn add_body<'a>(found: &mut Vec<Operation<'a>>, body: &'a [Literal]) -> Result<(), Memory>
    ensures { OnOk result (all_said found.new.items ≡ all_said found.old.items ++ operations (body_exprs body.now)) }
{
    for literal in body {
        add_item(found, &literal.item)?;
    }
    Ok(())
}

/// The expressions of a rule that are operations, from left to right.
#[tactic(auto, using(crate::proofs::Pushed::with_both))]
pub fn find_operations<'a>(
    alloc: Global,
    head: &'a Head,
    body: &'a [Literal],
) -> Result<Vec<Operation<'a>>, Memory>
    ensures { IfOk result (λ found. all_said found.items ≡ operations (rule_exprs head.now body.now)) }
{
    let mut found = Vec::new(alloc);
    add_head(&mut found, head)?;
    add_body(&mut found, body)?;
    Ok(found)
}
