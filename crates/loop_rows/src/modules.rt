//! The modules 0 and 1 of `p :- &tel { >? q }.` (always) and `q :- 'p.` (dynamic), in which p and q of the first state may support each other.

use normal_program::{NRule, NodeRule, Shape, StepModule, make_rule};
use sqlite_items::Items;
use std::alloc::Global;
use tel_base::{Lit, Memory};

/// The rule with this head and positive body atom, and the variable of its body.
fn rule_by(alloc: Global, head: u32, atom: u32, body: u32) -> Result<NRule, Memory> {
    make_rule(alloc, Some(head), false, &[Lit::of(atom)], Some(body))
}

/// A module with these rules, two atoms, and a node that is one of two literals.
fn module_of(
    alloc: Global,
    t: u32,
    rules: Items<NRule>,
    atoms: &[u32],
    node: u32,
    end: u32,
    lits: &[Lit],
) -> Result<StepModule, Memory> {
    let mut nodes = Items::new(alloc);
    nodes.push(NodeRule {
        var: node,
        shape: Shape::Any(Items::from_slice(alloc, lits)?),
    })?;
    Ok(StepModule {
        t,
        bodies: Items::new(alloc),
        rules,
        nodes,
        pairs: Items::new(alloc),
        atoms: Items::from_slice(alloc, atoms)?,
        open_vars: Items::new(alloc),
        end,
        close: None,
    })
}

/// State 0 of `p :- &tel { >? q }.` (always) and `q :- 'p.` (dynamic).
pub fn first_module(alloc: Global) -> Result<StepModule, Memory> {
    let mut rules = Items::new(alloc);
    rules.push(rule_by(alloc, 0, 2, 3)?)?;
    module_of(alloc, 0, rules, &[0, 1], 2, 5, &[Lit::of(1), Lit::of(8)])
}

/// State 1, with the rules of the node that these literals give.
pub fn second_module(alloc: Global, lits: &[Lit]) -> Result<StepModule, Memory> {
    let mut rules = Items::new(alloc);
    rules.push(rule_by(alloc, 6, 8, 9)?)?;
    rules.push(rule_by(alloc, 7, 0, 10)?)?;
    module_of(alloc, 1, rules, &[6, 7], 8, 11, lits)
}
