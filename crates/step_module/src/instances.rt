//! The bodies and rules of the instances of a module.

ghost use Rattle.std.specs.Prelude.{◌≡◌, ◌<◌, ◌≤◌, [], ◌∷◌, ◌++◌, length, IsTrue, IfOk, OnOk};
ghost use Rattle.std.specs.List.{list_all};
ghost use Rattle.tel_rule.specs.Ground.{literal_in_range, head_in_range, instance_in_range};
ghost use Rattle.step_module.specs.Rules.{head_use, head_rules, next_rules, instance_bodies, instance_rules, instance_next, numbered};

use crate::bodies::{body_at, is_at};
use atom_space::AtomSpace;
use normal_program::{BodyDef, BodyHead, NRule, make_rule};
use sqlite_items::Items;
use std::alloc::Global;
use tel_base::{Lit, Memory};
use tel_rule::{GroundHead, Instance};

/// What the body of an instance with this head is for.
fn use_of(space: &AtomSpace, head: GroundHead, t: u32) -> BodyHead
    requires in_range { IsTrue (head_in_range space.now.counts.atoms head) }
    requires state { t ≤ space.now.greatest }
    ensures { result ≡ head_use space.now.counts t head }
{
    match head {
        GroundHead::Normal { atom, after: false } => BodyHead::Normal(space.visible(atom, t)),
        GroundHead::Normal {
            atom: _,
            after: true,
        } => BodyHead::NextNormal,
        GroundHead::Choice { atom, after: false } => BodyHead::Choice(space.visible(atom, t)),
        GroundHead::Choice {
            atom: _,
            after: true,
        } => BodyHead::NextChoice,
        GroundHead::None => BodyHead::Nothing,
    }
}

/// The literals and one more.
fn with_lit(alloc: Global, lits: &[Lit], lit: Lit) -> Result<Items<Lit>, Memory>
    ensures { IfOk result (λ all. all ≡ lits.now ++ lit ∷ []) }
{
    let mut all = Items::from_slice(alloc, lits)?;
    all.push(lit)?;
    Ok(all)
}

/// Puts the rules with a body of a state into the module of that state.
fn add_rules(
    alloc: Global,
    rules: &mut Items<NRule>,
    space: &AtomSpace,
    head: GroundHead,
    lits: &[Lit],
    body: u32,
    t: u32,
) -> Result<(), Memory>
    requires in_range { IsTrue (head_in_range space.now.counts.atoms head) }
    requires state { t ≤ space.now.greatest }
    ensures { OnOk result (rules.new ≡ rules.old ++ head_rules space.now.counts t head lits.now body) }
{
    let body = Some(body);
    match head {
        GroundHead::Normal { atom, after: false } => {
            let atom = Some(space.visible(atom, t));
            rules.push(make_rule(alloc, atom, false, lits, body)?)?
        }
        GroundHead::Normal {
            atom: _,
            after: true,
        } => {
            let all = with_lit(alloc, lits, Lit::of(space.end(t)))?;
            rules.push(make_rule(alloc, None, false, all.as_slice(), body)?)?
        }
        GroundHead::Choice { atom, after: false } => {
            let atom = Some(space.visible(atom, t));
            rules.push(make_rule(alloc, atom, true, lits, body)?)?
        }
        GroundHead::Choice {
            atom: _,
            after: true,
        } => {}
        GroundHead::None => rules.push(make_rule(alloc, None, false, lits, body)?)?,
    }
    Ok(())
}

/// Puts the rules with a body of a state and a head of the next one into the module of the next one.
fn add_next_rules(
    alloc: Global,
    rules: &mut Items<NRule>,
    space: &AtomSpace,
    head: GroundHead,
    lits: &[Lit],
    body: u32,
    t: u32,
) -> Result<(), Memory>
    requires in_range { IsTrue (head_in_range space.now.counts.atoms head) }
    requires state { t < space.now.greatest }
    ensures { OnOk result (rules.new ≡ rules.old ++ next_rules space.now.counts t head lits.now body) }
{
    let _greatest = space.greatest;
    let body = Some(body);
    match head {
        GroundHead::Normal { atom, after: true } => {
            let atom = Some(space.visible(atom, t + 1));
            rules.push(make_rule(alloc, atom, false, lits, body)?)?
        }
        GroundHead::Choice { atom, after: true } => {
            let atom = Some(space.visible(atom, t + 1));
            rules.push(make_rule(alloc, atom, true, lits, body)?)?
        }
        GroundHead::Normal {
            atom: _,
            after: false,
        } => {}
        GroundHead::Choice {
            atom: _,
            after: false,
        } => {}
        GroundHead::None => {}
    }
    Ok(())
}

/// Puts the body and the rules of an instance into the module of a state, where it stands there.
fn add_instance(
    alloc: Global,
    bodies: &mut Items<BodyDef>,
    rules: &mut Items<NRule>,
    space: &AtomSpace,
    instance: &Instance,
    number: u32,
    t: u32,
) -> Result<(), Memory>
    requires head { IsTrue (head_in_range space.now.counts.atoms instance.now.head) }
    requires body { IsTrue (list_all (literal_in_range space.now.counts.atoms space.now.counts.nodes) instance.now.body) }
    requires number { number < space.now.counts.bodies }
    requires state { t ≤ space.now.greatest }
    ensures bodies { OnOk result (bodies.new ≡ bodies.old ++ instance_bodies space.now.counts t number instance.now) }
    ensures rules { OnOk result (rules.new ≡ rules.old ++ instance_rules space.now.counts t number instance.now) }
{
    if !is_at(instance, t) {
        return Ok(());
    }
    let lits = body_at(alloc, space, instance, t)?;
    let var = space.body(number, t);
    add_rules(alloc, rules, space, instance.head, lits.as_slice(), var, t)?;
    let head = use_of(space, instance.head, t);
    bodies.push(BodyDef { var, lits, head })?;
    Ok(())
}

/// Puts the rules of an instance with a primed head into the module of the next state.
fn add_next_instance(
    alloc: Global,
    rules: &mut Items<NRule>,
    space: &AtomSpace,
    instance: &Instance,
    number: u32,
    t: u32,
) -> Result<(), Memory>
    requires head { IsTrue (head_in_range space.now.counts.atoms instance.now.head) }
    requires body { IsTrue (list_all (literal_in_range space.now.counts.atoms space.now.counts.nodes) instance.now.body) }
    requires number { number < space.now.counts.bodies }
    requires state { t < space.now.greatest }
    ensures { OnOk result (rules.new ≡ rules.old ++ instance_next space.now.counts t number instance.now) }
{
    if !is_at(instance, t) {
        return Ok(());
    }
    let lits = body_at(alloc, space, instance, t)?;
    let var = space.body(number, t);
    add_next_rules(alloc, rules, space, instance.head, lits.as_slice(), var, t)
}

/// Puts the bodies of a state and the rules with these bodies into its module.
pub fn add_instances(
    alloc: Global,
    bodies: &mut Items<BodyDef>,
    rules: &mut Items<NRule>,
    space: &AtomSpace,
    instances: &[Instance],
    t: u32,
) -> Result<(), Memory>
    requires in_range { IsTrue (list_all (instance_in_range space.now.counts.atoms space.now.counts.nodes) instances.now) }
    requires count { length instances.now ≡ space.now.counts.bodies }
    requires state { t ≤ space.now.greatest }
    ensures bodies { OnOk result (bodies.new ≡ bodies.old ++ numbered (instance_bodies space.now.counts t) 0 instances.now) }
    ensures rules { OnOk result (rules.new ≡ rules.old ++ numbered (instance_rules space.now.counts t) 0 instances.now) }
{
    let _bodies = space.bodies;
    let mut number = 0;
    for instance in instances {
        add_instance(alloc, bodies, rules, space, instance, number, t)?;
        number += 1;
    }
    Ok(())
}

/// Puts the rules with a body of a state and a head of the next one into the module of the next one.
pub fn add_next_instances(
    alloc: Global,
    rules: &mut Items<NRule>,
    space: &AtomSpace,
    instances: &[Instance],
    t: u32,
) -> Result<(), Memory>
    requires in_range { IsTrue (list_all (instance_in_range space.now.counts.atoms space.now.counts.nodes) instances.now) }
    requires count { length instances.now ≡ space.now.counts.bodies }
    requires state { t < space.now.greatest }
    ensures { OnOk result (rules.new ≡ rules.old ++ numbered (instance_next space.now.counts t) 0 instances.now) }
{
    let _bodies = space.bodies;
    let mut number = 0;
    for instance in instances {
        add_next_instance(alloc, rules, space, instance, number, t)?;
        number += 1;
    }
    Ok(())
}
