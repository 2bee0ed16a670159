//! The variables that a module speaks of.

ghost use Rattle.std.specs.Prelude.{◌≡◌, ◌++◌, OnOk};
ghost use Rattle.std.specs.List.{flat_map};
ghost use Rattle.horizon_external.specs.Occurring.{lit_vars, option_vars, head_vars, body_vars, rule_vars, shape_vars, node_vars, pair_vars, module_vars};

use normal_program::{BodyDef, BodyHead, NRule, NodeRule, Shape, StepModule};
use sqlite_items::Items;
use tel_base::{Lit, Memory};

fn add_all(vars: &mut Items<u32>, more: &[u32]) -> Result<(), Memory>
    ensures { OnOk result (vars.new ≡ vars.old ++ more.now) }
{
    for var in more {
        vars.push(*var)?;
    }
    Ok(())
}

fn add_option(vars: &mut Items<u32>, more: Option<u32>) -> Result<(), Memory>
    ensures { OnOk result (vars.new ≡ vars.old ++ option_vars more) }
{
    if let Some(var) = more {
        vars.push(var)?;
    }
    Ok(())
}

fn add_lits(vars: &mut Items<u32>, lits: &[Lit]) -> Result<(), Memory>
    ensures { OnOk result (vars.new ≡ vars.old ++ lit_vars lits.now) }
{
    for lit in lits {
        vars.push(lit.var)?;
    }
    Ok(())
}

fn add_head(vars: &mut Items<u32>, head: BodyHead) -> Result<(), Memory>
    ensures { OnOk result (vars.new ≡ vars.old ++ head_vars head) }
{
    match head {
        BodyHead::Normal(var) => vars.push(var)?,
        BodyHead::Choice(var) => vars.push(var)?,
        BodyHead::Nothing => {}
        BodyHead::NextNormal => {}
        BodyHead::NextChoice => {}
    }
    Ok(())
}

fn add_body(vars: &mut Items<u32>, body: &BodyDef) -> Result<(), Memory>
    ensures { OnOk result (vars.new ≡ vars.old ++ body_vars body.now) }
{
    vars.push(body.var)?;
    add_lits(vars, body.lits.as_slice())?;
    add_head(vars, body.head)
}

fn add_bodies(vars: &mut Items<u32>, bodies: &[BodyDef]) -> Result<(), Memory>
    ensures { OnOk result (vars.new ≡ vars.old ++ flat_map body_vars bodies.now) }
{
    for body in bodies {
        add_body(vars, body)?;
    }
    Ok(())
}

fn add_rule(vars: &mut Items<u32>, rule: &NRule) -> Result<(), Memory>
    ensures { OnOk result (vars.new ≡ vars.old ++ rule_vars rule.now) }
{
    add_option(vars, rule.head)?;
    add_all(vars, rule.pos.as_slice())?;
    add_all(vars, rule.neg.as_slice())?;
    add_option(vars, rule.body)
}

fn add_rules(vars: &mut Items<u32>, rules: &[NRule]) -> Result<(), Memory>
    ensures { OnOk result (vars.new ≡ vars.old ++ flat_map rule_vars rules.now) }
{
    for rule in rules {
        add_rule(vars, rule)?;
    }
    Ok(())
}

fn add_shape(vars: &mut Items<u32>, shape: &Shape) -> Result<(), Memory>
    ensures { OnOk result (vars.new ≡ vars.old ++ shape_vars shape.now) }
{
    match shape {
        Shape::True => Ok(()),
        Shape::False => Ok(()),
        Shape::Is(lit) => add_lits(vars, &[*lit]),
        Shape::All(lits) => add_lits(vars, lits.as_slice()),
        Shape::Any(lits) => add_lits(vars, lits.as_slice()),
        Shape::AllAny(first, lits) => {
            vars.push(first.var)?;
            add_lits(vars, lits.as_slice())
        }
        Shape::AnyAll(one, first, second) => add_lits(vars, &[*one, *first, *second]),
        Shape::Same(first, second) => add_lits(vars, &[*first, *second]),
    }
}

fn add_node(vars: &mut Items<u32>, node: &NodeRule) -> Result<(), Memory>
    ensures { OnOk result (vars.new ≡ vars.old ++ node_vars node.now) }
{
    vars.push(node.var)?;
    add_shape(vars, &node.shape)
}

fn add_nodes(vars: &mut Items<u32>, nodes: &[NodeRule]) -> Result<(), Memory>
    ensures { OnOk result (vars.new ≡ vars.old ++ flat_map node_vars nodes.now) }
{
    for node in nodes {
        add_node(vars, node)?;
    }
    Ok(())
}

fn add_pairs(vars: &mut Items<u32>, pairs: &[(u32, u32)]) -> Result<(), Memory>
    ensures { OnOk result (vars.new ≡ vars.old ++ flat_map pair_vars pairs.now) }
{
    for pair in pairs {
        vars.push(pair.0)?;
        vars.push(pair.1)?;
    }
    Ok(())
}

/// The variables that a module speaks of, in some order and as often as it does. Its own open variables don't count.
pub fn add_module(vars: &mut Items<u32>, step: &StepModule) -> Result<(), Memory>
    ensures { OnOk result (vars.new ≡ vars.old ++ module_vars step.now) }
{
    add_bodies(vars, step.bodies.as_slice())?;
    add_rules(vars, step.rules.as_slice())?;
    add_nodes(vars, step.nodes.as_slice())?;
    add_pairs(vars, step.pairs.as_slice())?;
    add_all(vars, step.atoms.as_slice())
}
