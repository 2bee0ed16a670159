//! Whether an HT-trace satisfies the theory of a program.

ghost use Rattle.std.specs.Prelude.{◌≡◌, ◌<◌, not, ◌||◌, ◌&&◌, map, length, IsTrue};
ghost use Rattle.std.specs.List.{list_all};
ghost use Rattle.tel_rule.specs.Ground.{item_in_range, literal_in_range, instance_in_range};
ghost use Rattle.tel_semantics.specs.Traces.{test_of};
ghost use Rattle.tel_semantics.specs.Theory.{item_formula, literal_formula, body_formula, derived_formula, head_formula, instance_formula, demand_of, pair_formula, pair_demand, theory, is_demanded, meets, is_model};
ghost use Rattle.tel_semantics.specs.Walking.{seen, holds_in};

use crate::walking::HtTrace;
use tel_rule::{BodyItem, BodyLit, GroundHead, Instance, Part, Template};

/// Whether a part demands its formulas at the instant `k`.
fn is_demanded_at(part: Part, length: usize, k: usize) -> bool
    requires { k < length }
    ensures { result ≡ is_demanded part length k }
{
    match part {
        Part::Initial => k == 0,
        Part::Dynamic => k > 0,
        Part::Always => true,
        Part::Final => k + 1 == length,
    }
}

impl<'a> HtTrace<'a> {
    fn item_holds(&self, template: &Template, item: BodyItem, k: usize) -> bool
        requires within { k < self.now.length }
        requires in_range { IsTrue (item_in_range (length template.now.atoms) (length template.now.nodes) item) }
        ensures { result ≡ holds_in self.now (item_formula template.now.nodes item) k }
    {
        match item {
            BodyItem::Atom(atom) => self.has(atom, k),
            BodyItem::Before(atom) => k > 0 && self.has(atom, k - 1),
            BodyItem::Node(node) => self.node_holds(template, node, k),
        }
    }

    fn literal_holds(&self, template: &Template, literal: BodyLit, k: usize) -> bool
        requires within { k < self.now.length }
        requires in_range { IsTrue (literal_in_range (length template.now.atoms) (length template.now.nodes) literal) }
        ensures { result ≡ holds_in self.now (literal_formula template.now.nodes literal) k }
    {
        let holds = self.item_holds(template, literal.item, k);
        if literal.positive {
            holds
        } else {
            !holds && !self.total().item_holds(template, literal.item, k)
        }
    }

    fn body_holds(&self, template: &Template, body: &[BodyLit], k: usize) -> bool
        requires within { k < self.now.length }
        requires in_range { IsTrue (list_all (literal_in_range (length template.now.atoms) (length template.now.nodes)) body.now) }
        ensures { result ≡ holds_in self.now (body_formula template.now.nodes body.now) k }
    {
        for literal in body {
            if !self.literal_holds(template, *literal, k) {
                return false;
            }
        }
        true
    }

    fn derived_holds(&self, atom: u32, after: bool, k: usize) -> bool
        requires { k < self.now.length }
        ensures { result ≡ holds_in self.now (derived_formula atom after) k }
    {
        let length = self.length;
        if after {
            k + 1 < length && self.has(atom, k + 1)
        } else {
            self.has(atom, k)
        }
    }

    fn head_holds(&self, head: GroundHead, k: usize) -> bool
        requires { k < self.now.length }
        ensures { result ≡ holds_in self.now (head_formula head) k }
    {
        match head {
            GroundHead::Normal { atom, after } => self.derived_holds(atom, after, k),
            GroundHead::Choice { atom, after } => {
                self.derived_holds(atom, after, k) || !self.total().derived_holds(atom, after, k)
            }
            GroundHead::None => false,
        }
    }

    /// Whether the body fails or the head holds, in this world alone.
    fn follows_here(&self, template: &Template, instance: &Instance, k: usize) -> bool
        requires within { k < self.now.length }
        requires in_range { IsTrue (instance_in_range (length template.now.atoms) (length template.now.nodes) instance.now) }
        ensures { result ≡ (not (holds_in self.now (body_formula template.now.nodes instance.now.body) k)
            || holds_in self.now (head_formula instance.now.head) k) }
    {
        !self.body_holds(template, instance.body.as_slice(), k) || self.head_holds(instance.head, k)
    }

    /// Whether the pair satisfies the instance at the instant `k`.
    fn instance_holds(&self, template: &Template, instance: &Instance, k: usize) -> bool
        requires within { k < self.now.length }
        requires in_range { IsTrue (instance_in_range (length template.now.atoms) (length template.now.nodes) instance.now) }
        ensures { result ≡ holds_in self.now (instance_formula template.now.nodes instance.now) k }
    {
        self.follows_here(template, instance, k) && self.total().follows_here(template, instance, k)
    }

    /// Whether the pair satisfies the instance at the instant `k`, if its part demands it there.
    fn meets_at(&self, template: &Template, instance: &Instance, k: usize) -> bool
        requires within { k < self.now.length }
        requires in_range { IsTrue (instance_in_range (length template.now.atoms) (length template.now.nodes) instance.now) }
        ensures { result ≡ (not (is_demanded instance.now.part self.now.length k)
            || holds_in self.now (instance_formula template.now.nodes instance.now) k) }
    {
        !is_demanded_at(instance.part, self.length, k) || self.instance_holds(template, instance, k)
    }

    /// Whether the pair satisfies the instance wherever it is demanded.
    fn meets_everywhere(&self, template: &Template, instance: &Instance) -> bool
        requires { IsTrue (instance_in_range (length template.now.atoms) (length template.now.nodes) instance.now) }
        ensures { result ≡ meets self.now.length (test_of (seen self.now.world self.now.here.now self.now.there.now))
            (test_of self.now.there.now) (demand_of template.now.nodes instance.now) }
    {
        for k in 0..self.length {
            if !self.meets_at(template, instance, k) {
                return false;
            }
        }
        true
    }

    /// Whether the pair satisfies all the instances wherever they are demanded.
    fn meets_instances(&self, template: &Template) -> bool
        ensures { result ≡ is_model (map (demand_of template.now.nodes) template.now.instances) self.now.length
            (test_of (seen self.now.world self.now.here.now self.now.there.now)) (test_of self.now.there.now) }
    {
        for instance in template.instances.as_slice() {
            if !self.meets_everywhere(template, instance) {
                return false;
            }
        }
        true
    }

    /// Whether not both atoms are true at the instant, in this world and in the world `There`.
    fn are_apart_at(&self, pair: (u32, u32), k: usize) -> bool
        ensures { result ≡ holds_in self.now (pair_formula pair) k }
    {
        let total = self.total();
        !(self.has(pair.0, k) && self.has(pair.1, k))
            && !(total.has(pair.0, k) && total.has(pair.1, k))
    }

    /// Whether the two atoms are nowhere both true.
    fn keeps_apart(&self, pair: (u32, u32)) -> bool
        ensures { result ≡ meets self.now.length (test_of (seen self.now.world self.now.here.now self.now.there.now))
            (test_of self.now.there.now) (pair_demand pair) }
    {
        for k in 0..self.length {
            if !self.are_apart_at(pair, k) {
                return false;
            }
        }
        true
    }

    /// Whether nowhere an atom and its negative are true.
    fn keeps_pairs(&self, pairs: &[(u32, u32)]) -> bool
        ensures { result ≡ is_model (map pair_demand pairs.now) self.now.length
            (test_of (seen self.now.world self.now.here.now self.now.there.now)) (test_of self.now.there.now) }
    {
        for pair in pairs {
            if !self.keeps_apart(*pair) {
                return false;
            }
        }
        true
    }

    /// Whether the pair is a model of the program's theory.
    pub fn is_model_of(&self, template: &Template) -> bool
        ensures { result ≡ is_model (theory template.now) self.now.length
            (test_of (seen self.now.world self.now.here.now self.now.there.now)) (test_of self.now.there.now) }
    {
        self.meets_instances(template) && self.keeps_pairs(template.pairs.as_slice())
    }
}
