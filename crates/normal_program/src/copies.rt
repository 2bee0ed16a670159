//! Copies of modules.

ghost use Rattle.std.specs.Prelude.{◌≡◌, IfOk};
ghost use Rattle.normal_program.specs.Grounds.{all_rules, parts_of};

use crate::modules::{BodyDef, ModuleParts, StepModule};
use crate::rules::NRule;
use crate::shapes::{NodeRule, Shape, rules_of};
use sqlite_items::Items;
use std::alloc::Global;
use tel_base::Memory;

fn copy_rule(alloc: Global, rule: &NRule) -> Result<NRule, Memory>
    ensures { IfOk result (λ copy. copy ≡ rule.now) }
{
    Ok(NRule {
        head: rule.head,
        choice: rule.choice,
        pos: Items::from_slice(alloc, rule.pos.as_slice())?,
        neg: Items::from_slice(alloc, rule.neg.as_slice())?,
        body: rule.body,
    })
}

fn copy_shape(alloc: Global, shape: &Shape) -> Result<Shape, Memory>
    ensures { IfOk result (λ copy. copy ≡ shape.now) }
{
    match shape {
        Shape::True => Ok(Shape::True),
        Shape::False => Ok(Shape::False),
        Shape::Is(lit) => Ok(Shape::Is(*lit)),
        Shape::All(lits) => Ok(Shape::All(Items::from_slice(alloc, lits.as_slice())?)),
        Shape::Any(lits) => Ok(Shape::Any(Items::from_slice(alloc, lits.as_slice())?)),
        Shape::AllAny(first, lits) => {
            let lits = Items::from_slice(alloc, lits.as_slice())?;
            Ok(Shape::AllAny(*first, lits))
        }
        Shape::AnyAll(one, first, second) => Ok(Shape::AnyAll(*one, *first, *second)),
        Shape::Same(first, second) => Ok(Shape::Same(*first, *second)),
    }
}

fn copy_nodes(alloc: Global, nodes: &[NodeRule]) -> Result<Items<NodeRule>, Memory>
    ensures { IfOk result (λ copy. copy ≡ nodes.now) }
{
    let mut copy = Items::new(alloc);
    for node in nodes {
        let shape = copy_shape(alloc, &node.shape)?;
        copy.push(NodeRule {
            var: node.var,
            shape,
        })?;
    }
    Ok(copy)
}

fn copy_bodies(alloc: Global, bodies: &[BodyDef]) -> Result<Items<BodyDef>, Memory>
    ensures { IfOk result (λ copy. copy ≡ bodies.now) }
{
    let mut copy = Items::new(alloc);
    for body in bodies {
        let lits = Items::from_slice(alloc, body.lits.as_slice())?;
        copy.push(BodyDef {
            var: body.var,
            lits,
            head: body.head,
        })?;
    }
    Ok(copy)
}

/// What a module has besides its rules.
pub fn copy_parts(alloc: Global, step: &StepModule) -> Result<ModuleParts, Memory>
    ensures { IfOk result (λ parts. parts ≡ parts_of step.now) }
{
    Ok(ModuleParts {
        bodies: copy_bodies(alloc, step.bodies.as_slice())?,
        nodes: copy_nodes(alloc, step.nodes.as_slice())?,
        pairs: Items::from_slice(alloc, step.pairs.as_slice())?,
        atoms: Items::from_slice(alloc, step.atoms.as_slice())?,
        open_vars: Items::from_slice(alloc, step.open_vars.as_slice())?,
        end: step.end,
        close: step.close,
    })
}

fn copy_rules(alloc: Global, rules: &[NRule]) -> Result<Vec<NRule>, Memory>
    ensures { IfOk result (λ copy. copy.items ≡ rules.now) }
{
    let mut copy = Vec::new(alloc);
    for rule in rules {
        copy.push(copy_rule(alloc, rule)?)?;
    }
    Ok(copy)
}

/// All rules of a module: its own, and then those of its nodes.
pub fn rules_of_module(alloc: Global, step: &StepModule) -> Result<Vec<NRule>, Memory>
    ensures { IfOk result (λ rules. rules.items ≡ all_rules step.now) }
{
    let mut rules = copy_rules(alloc, step.rules.as_slice())?;
    for node in step.nodes.as_slice() {
        let mut more = rules_of(alloc, node)?;
        rules.append(&mut more)?;
    }
    Ok(rules)
}
