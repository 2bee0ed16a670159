//! Which variables are bound, and which rules of binding wait for others.

ghost use Rattle.std.specs.Prelude.{◌≡◌, ◌+◌, ◌<◌, ◌↔◌, ◌&&◌, ◌++◌, ◌∷◌, [], ℕ, length, nat_lt, IsTrue, IsFalse, OnOk, MatchOption, vec_len, slice_index_or, if◌then◌else◌, ◌==◌};
ghost use Rattle.std.specs.List.{list_all};
ghost use Rattle.rule_binding.specs.Binding.{Vars};
ghost use Rattle.rule_binding.specs.Closure.{keeps, keeps_rule, marked};
ghost use Rattle.rule_binding.specs.Waiting.{waiting_at, is_below, are_below, Holds, IsState, Meets, left_of};

use crate::rules::BindingRule;
use sqlite_items::Items;
use std::alloc::Global;
use std::mem;
use tel_base::Memory;

/// The variables that are bound, those of them that are still to be looked at, and for each variable
/// the rules that wait for it.
#[derive(Drop)]
pub struct State {
    pub bound: Vec<bool>,
    pub waiting: Vec<Items<BindingRule>>,
    pub queue: Items<u32>,
}

/// Whether a variable has a mark.
fn is_marked(marks: &[bool], v: u32) -> bool
    ensures { result ≡ marked marks.now v }
{
    marks.get(v as usize).copied().unwrap_or(false)
}

/// Takes a variable without a mark away from these, with all that have one behind it.
fn open_need(needs: &mut Items<u32>, marks: &[bool]) -> Option<u32>
    ensures { MatchOption result
        ((X : Vars) → Holds X marks.now → IsTrue (list_all X needs.old))
        (λ v. IsFalse (marked marks.now v) × ((X : Vars) → Holds X marks.now → list_all X needs.old ≡ (list_all X needs.new && X v))) }
{
    'needs: while let Some(v) = needs.pop() {
        if !is_marked(marks, v) {
            return Some(v);
        }
    }
    None
}

impl State {
    /// A rule waits for a variable.
    fn wait(&mut self, v: u32, rule: BindingRule) -> Result<(), Memory>
        requires within { v < vec_len self.old.waiting }
        ensures at { OnOk result ((u : ℕ) → waiting_at self.new.waiting.items u ≡ waiting_at self.old.waiting.items u ++ (if v == u then rule ∷ [] else [])) }
        ensures len { vec_len self.new.waiting ≡ vec_len self.old.waiting }
        ensures bound { self.new.bound ≡ self.old.bound }
        ensures queue { self.new.queue ≡ self.old.queue }
    {
        self.waiting[v as usize].push(rule)?;
        Ok(())
    }

    /// Binds a variable, which is then to be looked at, unless it is bound already.
    fn bind(&mut self, v: u32) -> Result<(), Memory>
        requires state { IsState self.old }
        requires within { v < vec_len self.old.bound }
        ensures state { OnOk result (IsState self.new) }
        ensures meets { OnOk result ((X : Vars) → Meets X self.new ↔ (Meets X self.old × IsTrue (X v))) }
        ensures left { OnOk result (left_of self.new ≡ left_of self.old) }
        ensures size { OnOk result (vec_len self.new.bound ≡ vec_len self.old.bound) }
    {
        if !is_marked(self.bound.as_slice(), v) {
            self.queue.push(v)?;
            self.bound[v as usize] = true;
        }
        Ok(())
    }

    /// Takes in a rule.
    fn settle(&mut self, rule: BindingRule) -> Result<(), Memory>
        requires state { IsState self.old }
        requires below { IsTrue (is_below (vec_len self.old.bound) rule) }
        ensures state { OnOk result (IsState self.new) }
        ensures meets { OnOk result ((X : Vars) → Meets X self.new ↔ (Meets X self.old × IsTrue (keeps_rule X rule))) }
        ensures left { OnOk result (left_of self.new ≡ left_of self.old) }
        ensures size { OnOk result (vec_len self.new.bound ≡ vec_len self.old.bound) }
    {
        let BindingRule { var, mut needs } = rule;
        match open_need(&mut needs, self.bound.as_slice()) {
            Some(v) => self.wait(v, BindingRule { var, needs }),
            None => self.bind(var),
        }
    }

    /// Takes in rules.
    pub fn settle_all(&mut self, rules: Items<BindingRule>) -> Result<(), Memory>
        requires state { IsState self.old }
        requires below { IsTrue (are_below (vec_len self.old.bound) rules) }
        ensures state { OnOk result (IsState self.new) }
        ensures meets { OnOk result ((X : Vars) → Meets X self.new ↔ (Meets X self.old × IsTrue (keeps X rules))) }
        ensures left { OnOk result (left_of self.new ≡ left_of self.old) }
        ensures size { OnOk result (vec_len self.new.bound ≡ vec_len self.old.bound) }
    {
        let mut rest = rules;
        'rules: while let Some(rule) = rest.pop() {
            self.settle(rule)?;
        }
        Ok(())
    }

    /// Takes the rules that wait for a variable that is bound and was not looked at yet, where there is
    /// one.
    pub fn wake(&mut self, alloc: Global) -> Option<Items<BindingRule>>
        requires state { IsState self.old }
        ensures state { IsState self.new }
        ensures size { vec_len self.new.bound ≡ vec_len self.old.bound }
        ensures woken { MatchOption result
            ((self.new ≡ self.old) × (self.old.queue ≡ []))
            (λ woken. IsTrue (are_below (vec_len self.old.bound) woken) × (left_of self.old ≡ left_of self.new + 1) × ((X : Vars) → Meets X self.old ↔ (Meets X self.new × IsTrue (keeps X woken)))) }
    {
        match self.queue.pop() {
            Some(v) => Some(mem::replace(&mut self.waiting[v as usize], Items::new(alloc))),
            None => None,
        }
    }
}
