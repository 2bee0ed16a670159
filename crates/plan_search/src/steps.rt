use join_plans::Column;
use sqlite_items::Items;
use tel_rule::Relation;
use tel_term::Expr;

/// A step of a plan.
#[derive(Drop)]
pub enum Step<'a> {
    /// The values at the places of the columns are a row of this predicate.
    Row(u32, Items<Column>),
    /// The place of the column has the value of the expression.
    Equal(Column, &'a Expr),
    /// The values of the expressions stand so.
    Compare(Relation, &'a Expr, &'a Expr),
}
