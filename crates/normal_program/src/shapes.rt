ghost use Rattle.std.specs.Prelude.{◌≡◌, IfOk, [], ◌∷◌, map};
ghost use Rattle.tel_base.specs.declared.literals.Lit.{Lit};
ghost use Rattle.normal_program.specs.Shapes.{node_rule, rules_of_node};

use crate::rules::{NRule, make_rule};
use sqlite_items::Items;
use std::alloc::Global;
use tel_base::{Lit, Memory};

/// When the variable of a node is true, by the literals that it hangs on.
#[derive(Drop)]
pub enum Shape {
    True,
    False,
    /// Where this literal is.
    Is(Lit),
    /// Where all are.
    All(Items<Lit>),
    /// Where one is.
    Any(Items<Lit>),
    /// Where the first is, and one of the others.
    AllAny(Lit, Items<Lit>),
    /// Where the first is, or both others are.
    AnyAll(Lit, Lit, Lit),
    /// Where both are or none is.
    Same(Lit, Lit),
}

/// The variable of a node, and its shape.
#[derive(Drop)]
pub struct NodeRule {
    pub var: u32,
    pub shape: Shape,
}

/// The one rule with these literals as its body.
fn one(alloc: Global, var: u32, lits: &[Lit]) -> Result<Vec<NRule>, Memory>
    ensures { IfOk result (λ rules. rules.items ≡ node_rule var lits.now ∷ []) }
{
    let mut rules = Vec::new(alloc);
    rules.push(make_rule(alloc, Some(var), false, lits, None)?)?;
    Ok(rules)
}

/// The two rules with these bodies.
fn two(alloc: Global, var: u32, lits: &[Lit], others: &[Lit]) -> Result<Vec<NRule>, Memory>
    ensures { IfOk result (λ rules. rules.items ≡ node_rule var lits.now ∷ node_rule var others.now ∷ []) }
{
    let mut rules = Vec::new(alloc);
    rules.push(make_rule(alloc, Some(var), false, lits, None)?)?;
    rules.push(make_rule(alloc, Some(var), false, others, None)?)?;
    Ok(rules)
}

/// A rule for each of these literals.
fn each(alloc: Global, var: u32, lits: &[Lit]) -> Result<Vec<NRule>, Memory>
    ensures { IfOk result (λ rules. rules.items ≡ map (λ (lit : Lit). node_rule var (lit ∷ [])) lits.now) }
{
    let mut rules = Vec::new(alloc);
    for lit in lits {
        let body = [*lit];
        rules.push(make_rule(alloc, Some(var), false, &body, None)?)?;
    }
    Ok(rules)
}

/// A rule for each of these literals, with one more in front.
fn each_with(alloc: Global, var: u32, first: Lit, lits: &[Lit]) -> Result<Vec<NRule>, Memory>
    ensures { IfOk result (λ rules. rules.items ≡ map (λ (lit : Lit). node_rule var (first ∷ lit ∷ [])) lits.now) }
{
    let mut rules = Vec::new(alloc);
    for lit in lits {
        let body = [first, *lit];
        rules.push(make_rule(alloc, Some(var), false, &body, None)?)?;
    }
    Ok(rules)
}

/// The rules that make the variable of a node true where its shape says so.
pub fn rules_of(alloc: Global, node: &NodeRule) -> Result<Vec<NRule>, Memory>
    ensures { IfOk result (λ rules. rules.items ≡ rules_of_node node.now) }
{
    let var = node.var;
    match &node.shape {
        Shape::True => one(alloc, var, &[]),
        Shape::False => Ok(Vec::new(alloc)),
        Shape::Is(lit) => one(alloc, var, &[*lit]),
        Shape::All(lits) => one(alloc, var, lits.as_slice()),
        Shape::Any(lits) => each(alloc, var, lits.as_slice()),
        Shape::AllAny(first, lits) => each_with(alloc, var, *first, lits.as_slice()),
        Shape::AnyAll(one, first, second) => two(alloc, var, &[*one], &[*first, *second]),
        Shape::Same(first, second) => {
            two(
                alloc,
                var,
                &[*first, *second],
                &[first.negated(), second.negated()],
            )
        }
    }
}
