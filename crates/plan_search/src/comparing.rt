//! Comparisons of values.
ghost use Rattle.std.specs.Prelude.{◌≡◌};
ghost use Rattle.tel_term.specs.Arithmetic.{expr_value};
ghost use Rattle.live_instances.specs.Instances.{relates, both_relate};
ghost use Rattle.rule_plans.specs.Within.{values_in};
ghost use Rattle.plan_search.specs.Steps.{AreTerms};

use std::cmp::Ordering;
use tel_rule::Relation;
use tel_term::{Expr, Symbols, Value, eval};

/// Whether a relation holds of two terms that stand so.
fn relates(relation: Relation, order: Ordering) -> bool
    ensures { result ≡ relates relation order }
{
    match relation {
        Relation::Equal => order == Ordering::Equal,
        Relation::Unequal => order != Ordering::Equal,
        Relation::Less => order == Ordering::Less,
        Relation::LessEqual => order != Ordering::Greater,
        Relation::Greater => order == Ordering::Greater,
        Relation::GreaterEqual => order != Ordering::Less,
    }
}

/// Whether the values of two expressions stand so; false where one has none.
pub fn compares(
    symbols: &Symbols,
    relation: Relation,
    left: &Expr,
    right: &Expr,
    env: &[Value],
) -> bool
    requires left { AreTerms symbols.now (values_in left.now) }
    requires right { AreTerms symbols.now (values_in right.now) }
    requires env { AreTerms symbols.now env.now }
    ensures { result ≡ both_relate symbols.now relation (expr_value env.now left.now) (expr_value env.now right.now) }
{
    match eval(left, env) {
        Ok(left) => match eval(right, env) {
            Ok(right) => relates(relation, symbols.cmp(left, right)),
            Err(_) => false,
        },
        Err(_) => false,
    }
}
