use sqlite_items::Items;
use tel_rule::Relation;
use tel_term::Expr;

/// What a plan asks for.
#[derive(Drop)]
pub enum Goal<'a> {
    /// The values at these places are a row of this predicate.
    Row(u32, Items<u32>),
    /// The place has the value of the expression, which reads these places.
    Equal(u32, &'a Expr, Items<u32>),
    /// The values of the expressions, which read these places, stand so.
    Compare(Relation, &'a Expr, &'a Expr, Items<u32>),
}
