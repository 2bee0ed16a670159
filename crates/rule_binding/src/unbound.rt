//! The first variable of a statement that isn't bound.

ghost use Rattle.std.specs.Prelude.{◌≡◌, IfOk};
ghost use Rattle.rule_binding.specs.Binding.{body_of, IsFirstMissing, IsFirstUnbound};
ghost use Rattle.rule_binding.specs.Closure.{marked};
ghost use Rattle.rule_binding.specs.Heads.{tells};

use crate::closure::closure;
use crate::rules::body_rules;
use crate::tables::Tables;
use std::alloc::Global;
use tel_base::Memory;
use tel_rule::{Kind, Literal, Statement};

/// The body of a rule; other statements have none.
fn body_of(kind: &Kind) -> &[Literal]
    ensures { result.now ≡ body_of kind.now }
{
    match kind {
        Kind::Rule(_, body) => body.as_slice(),
        Kind::Facts(_) => &[],
        Kind::Const(_, _) => &[],
        Kind::Show(_) => &[],
    }
}

/// The first of so many variables that has no mark.
fn first_missing(marks: &[bool], count: usize) -> Option<usize>
    ensures { IsFirstMissing (marked marks.now) count result }
{
    for v in 0..count {
        if !marks.get(v).copied().unwrap_or(false) {
            return Some(v);
        }
    }
    None
}

/// The first variable of a statement that isn't bound, by its number, where there is one; and `None`
/// where all are bound.
///
/// A variable is bound where it is a whole argument of a positive unprimed table atom of the body;
/// then, again and again, by an `=` that has it alone on one side and no unbound variable on the
/// other. It takes time linear in the statement.
pub fn first_unbound(
    alloc: Global,
    tables: &Tables,
    statement: &Statement,
) -> Result<Option<usize>, Memory>
    ensures { IfOk result (λ first. IsFirstUnbound (tells tables.now) statement.now first) }
{
    let rules = body_rules(alloc, tables, body_of(&statement.kind))?;
    let bound = closure(alloc, rules)?;
    Ok(first_missing(bound.as_slice(), statement.vars.len()))
}
