//! The clauses of nodes: that a variable has the value of its shape.
ghost use Rattle.std.specs.Prelude.{◌≡◌, ◌++◌, ◌∷◌, [], OnOk};
ghost use Rattle.std.specs.List.{flat_map};
ghost use Rattle.tel_base.specs.Literals.{negate};
ghost use Rattle.normal_program.specs.ModuleClauses.{node_clauses};

use crate::lists::{push, push_all, push_all_not, push_each, push_each_not, push_each_not_behind};
use normal_program::{NodeRule, Shape};
use std::alloc::Global;
use tel_base::{Clause, Lit, Memory};

/// Adds that a literal has the value of another one.
fn add_is(alloc: Global, clauses: &mut Vec<Clause>, node: Lit, lit: Lit) -> Result<(), Memory>
    ensures { OnOk result (clauses.new.items ≡ clauses.old.items ++ (negate node ∷ lit ∷ []) ∷ (node ∷ negate lit ∷ []) ∷ []) }
{
    push(alloc, clauses, &[node.negated(), lit])?;
    push(alloc, clauses, &[node, lit.negated()])
}

/// Adds the clauses of the shapes of three literals.
fn add_any_all(
    alloc: Global,
    clauses: &mut Vec<Clause>,
    node: Lit,
    one: Lit,
    first: Lit,
    second: Lit,
) -> Result<(), Memory>
    ensures { OnOk result (clauses.new.items ≡ clauses.old.items
        ++ (node ∷ negate one ∷ []) ∷ (node ∷ negate first ∷ negate second ∷ []) ∷ (negate node ∷ one ∷ first ∷ []) ∷ (negate node ∷ one ∷ second ∷ []) ∷ []) }
{
    push(alloc, clauses, &[node, one.negated()])?;
    push(alloc, clauses, &[node, first.negated(), second.negated()])?;
    push(alloc, clauses, &[node.negated(), one, first])?;
    push(alloc, clauses, &[node.negated(), one, second])
}

/// Adds that a literal is true where two others have one value.
fn add_same(
    alloc: Global,
    clauses: &mut Vec<Clause>,
    node: Lit,
    first: Lit,
    second: Lit,
) -> Result<(), Memory>
    ensures { OnOk result (clauses.new.items ≡ clauses.old.items
        ++ (negate node ∷ negate first ∷ second ∷ []) ∷ (negate node ∷ first ∷ negate second ∷ []) ∷ (node ∷ first ∷ second ∷ []) ∷ (node ∷ negate first ∷ negate second ∷ []) ∷ []) }
{
    push(alloc, clauses, &[node.negated(), first.negated(), second])?;
    push(alloc, clauses, &[node.negated(), first, second.negated()])?;
    push(alloc, clauses, &[node, first, second])?;
    push(alloc, clauses, &[node, first.negated(), second.negated()])
}

/// Adds that the variable of a node has the value of its shape.
fn add_node(alloc: Global, clauses: &mut Vec<Clause>, node: &NodeRule) -> Result<(), Memory>
    ensures { OnOk result (clauses.new.items ≡ clauses.old.items ++ node_clauses node.now) }
{
    let var = Lit::of(node.var);
    match &node.shape {
        Shape::True => push(alloc, clauses, &[var]),
        Shape::False => push(alloc, clauses, &[var.negated()]),
        Shape::Is(lit) => add_is(alloc, clauses, var, *lit),
        Shape::All(lits) => {
            push_each(alloc, clauses, var.negated(), lits.as_slice())?;
            push_all_not(alloc, clauses, var, lits.as_slice())
        }
        Shape::Any(lits) => {
            push_each_not(alloc, clauses, var, lits.as_slice())?;
            push_all(alloc, clauses, var.negated(), lits.as_slice())
        }
        Shape::AllAny(first, lits) => {
            push(alloc, clauses, &[var.negated(), *first])?;
            push_all(alloc, clauses, var.negated(), lits.as_slice())?;
            push_each_not_behind(alloc, clauses, var, first.negated(), lits.as_slice())
        }
        Shape::AnyAll(one, first, second) => add_any_all(
            alloc, clauses, var, *one, *first, *second,
        ),
        Shape::Same(first, second) => add_same(alloc, clauses, var, *first, *second),
    }
}

/// Adds the clauses of these nodes.
pub fn add_nodes(alloc: Global, clauses: &mut Vec<Clause>, nodes: &[NodeRule]) -> Result<(), Memory>
    ensures { OnOk result (clauses.new.items ≡ clauses.old.items ++ flat_map node_clauses nodes.now) }
{
    for node in nodes {
        add_node(alloc, clauses, node)?;
    }
    Ok(())
}
