//! The module of a state.

ghost use Rattle.std.specs.Prelude.{◌≡◌, ◌<◌, ◌≤◌, ◌+◌, ◌-◌, [], ◌∷◌, map, length, IsTrue, IfOk, nat_lt, ◌&&◌, ℕ};
ghost use Rattle.std.specs.List.{list_all, range_with_len};
ghost use Rattle.atom_space.specs.Numbers.{visible};
ghost use Rattle.formula_unfold.specs.Nodes.{counts_of, node_at};
ghost use Rattle.step_module.specs.Rules.{instance_bodies, numbered};
ghost use Rattle.step_module.specs.Modules.{rules_at, pairs_at, stated, module_of};

use crate::instances::{add_instances, add_next_instances};
use atom_space::AtomSpace;
use formula_unfold::unfold;
use horizon_external::{close, end_var, open_vars};
use normal_program::{BodyDef, NRule, NodeRule, StepModule};
use sqlite_items::Items;
use std::alloc::Global;
use tel_base::Memory;
use tel_rule::Template;

/// The bodies of a state, and the rules of its module.
fn rules_of_state(
    alloc: Global,
    template: &Template,
    space: &AtomSpace,
    t: u32,
) -> Result<(Items<BodyDef>, Items<NRule>), Memory>
    requires state { t < space.now.greatest }
    requires counts { space.now.counts ≡ counts_of template.now }
    ensures bodies { IfOk result (λ made. made.0 ≡ (stated template.now t).bodies) }
    ensures rules { IfOk result (λ made. made.1 ≡ rules_at template.now t) }
{
    let instances = template.instances.as_slice();
    let mut bodies = Items::new(alloc);
    let mut rules = Items::new(alloc);
    add_instances(alloc, &mut bodies, &mut rules, space, instances, t)?;
    if t > 0 {
        add_next_instances(alloc, &mut rules, space, instances, t - 1)?;
    }
    Ok((bodies, rules))
}

/// The nodes at a state.
fn nodes_at(
    alloc: Global,
    template: &Template,
    space: &AtomSpace,
    t: u32,
) -> Result<Items<NodeRule>, Memory>
    requires state { t < space.now.greatest }
    requires counts { space.now.counts ≡ counts_of template.now }
    ensures { IfOk result (λ nodes. nodes ≡ map (node_at template.now t) (range_with_len 0 (length template.now.nodes))) }
{
    let mut nodes = Items::new(alloc);
    for node in 0..space.nodes {
        nodes.push(unfold(alloc, template, space, node, t)?)?;
    }
    Ok(nodes)
}

/// The variables of the atoms at a state.
fn atoms_at(alloc: Global, space: &AtomSpace, t: u32) -> Result<Items<u32>, Memory>
    requires state { t ≤ space.now.greatest }
    ensures { IfOk result (λ list. list ≡ map (λ (atom : ℕ). visible space.now.counts atom t) (range_with_len 0 space.now.counts.atoms)) }
{
    let mut list = Items::new(alloc);
    for atom in 0..space.atoms {
        list.push(space.visible(atom, t))?;
    }
    Ok(list)
}

/// The pairs at a state.
fn pairs_of(
    alloc: Global,
    space: &AtomSpace,
    pairs: &[(u32, u32)],
    t: u32,
) -> Result<Items<(u32, u32)>, Memory>
    requires in_range { IsTrue (list_all (λ pair. nat_lt pair.0 space.now.counts.atoms && nat_lt pair.1 space.now.counts.atoms) pairs.now) }
    requires state { t ≤ space.now.greatest }
    ensures { IfOk result (λ list. list ≡ map (λ pair. (visible space.now.counts pair.0 t, visible space.now.counts pair.1 t)) pairs.now) }
{
    let mut list = Items::new(alloc);
    for pair in pairs {
        list.push((space.visible(pair.0, t), space.visible(pair.1, t)))?;
    }
    Ok(list)
}

/// The module of a state, but for its open variables.
fn without_open(
    alloc: Global,
    template: &Template,
    space: &AtomSpace,
    t: u32,
) -> Result<StepModule, Memory>
    requires state { t < space.now.greatest }
    requires counts { space.now.counts ≡ counts_of template.now }
    ensures { IfOk result (λ step. step ≡ stated template.now t) }
{
    let close = if t > 0 {
        Some(close(space, t - 1))
    } else {
        None
    };
    let (bodies, rules) = rules_of_state(alloc, template, space, t)?;
    Ok(StepModule {
        t,
        bodies,
        rules,
        nodes: nodes_at(alloc, template, space, t)?,
        pairs: pairs_of(alloc, space, template.pairs.as_slice(), t)?,
        atoms: atoms_at(alloc, space, t)?,
        open_vars: Items::new(alloc),
        end: end_var(space, t),
        close,
    })
}

/// The module of a state.
///
/// An instance stands at the states of its part, but where a positive literal of it looks back from the first one. It gives a rule with
/// its body there. Where its head is primed the rule stands in the module of the next state, and a constraint in this one says that a
/// normal head is not asked for at the end.
pub fn module(
    alloc: Global,
    template: &Template,
    space: &AtomSpace,
    t: u32,
) -> Result<StepModule, Memory>
    requires state { t < space.now.greatest }
    requires counts { space.now.counts ≡ counts_of template.now }
    ensures { IfOk result (λ step. step ≡ module_of template.now t) }
{
    let mut step = without_open(alloc, template, space, t)?;
    step.open_vars = open_vars(alloc, &step, space)?;
    Ok(step)
}
