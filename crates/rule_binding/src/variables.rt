//! The variables of expressions.

ghost use Rattle.std.specs.Prelude.{◌≡◌, ◌++◌, OnOk};
ghost use Rattle.rule_binding.specs.Binding.{vars_of, with_vars, operand_vars, whole_var};

use sqlite_items::Items;
use tel_base::Memory;
use tel_term::{Expr, ProductOp, SumOp};

/// The variable that an expression is as a whole.
pub fn whole_variable(expr: &Expr) -> Option<u32>
    ensures { result ≡ whole_var expr.now }
{
    match expr {
        Expr::Var(v) => Some(*v),
        Expr::Value(_) => None,
        Expr::Minus(_) => None,
        Expr::Sum(_, _) => None,
        Expr::Product(_, _) => None,
    }
}

/// Adds the variables of an expression, from left to right.
#[cycle(collecting)]
pub fn collect_variables(expr: &Expr, vars: &mut Items<u32>) -> Result<(), Memory>
    ensures { OnOk result (vars.new ≡ vars.old ++ vars_of expr.now) }
{
    match expr {
        Expr::Value(_) => Ok(()),
        Expr::Var(v) => {
            vars.push(*v)?;
            Ok(())
        }
        Expr::Minus(inner) => collect_variables(inner.get(), vars),
        Expr::Sum(first, more) => {
            collect_variables(first.get(), vars)?;
            collect_sum(more.as_slice(), vars)
        }
        Expr::Product(first, more) => {
            collect_variables(first.get(), vars)?;
            collect_product(more.as_slice(), vars)
        }
    }
}

/// Adds the variables of what is added or subtracted.
#[cycle(collecting)]
fn collect_sum(more: &[(SumOp, Expr)], vars: &mut Items<u32>) -> Result<(), Memory>
    ensures { OnOk result (vars.new ≡ vars.old ++ operand_vars (with_vars more.now)) }
{
    for operand in more {
        collect_variables(&operand.1, vars)?;
    }
    Ok(())
}

/// Adds the variables of what is multiplied with or divided by.
#[cycle(collecting)]
fn collect_product(more: &[(ProductOp, Expr)], vars: &mut Items<u32>) -> Result<(), Memory>
    ensures { OnOk result (vars.new ≡ vars.old ++ operand_vars (with_vars more.now)) }
{
    for operand in more {
        collect_variables(&operand.1, vars)?;
    }
    Ok(())
}
