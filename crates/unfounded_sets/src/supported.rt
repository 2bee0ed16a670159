//! The least set of supported variables, by a scan that looks at each rule again only where it waits.

ghost use Rattle.std.specs.Prelude.{◌≡◌, ◌+◌, ◌<◌, ◌≤◌, ℕ, IsTrue, OnOk, Some, false, length, replicate, take, slice_index_or, ◌==◌};
ghost use Rattle.unfounded_sets.specs.Least.{wanted_below, at, all_of, is_kept, LeastFrom, missing};
ghost use Rattle.unfounded_sets.specs.LoopClauses.{among};
ghost use Rattle.unfounded_sets.specs.Marks.{rest_of};
ghost use Rattle.unfounded_sets.specs.Scanning.{is_live, IsWait, IsScan, AreServed, IsStep, none, state_of, found_with, fresh_with};
ghost use Rattle.unfounded_sets.specs.Unfounded.{head_in};
ghost use Rattle.unfounded_sets.specs.Waiting.{row};

use crate::bodies::{is_off, is_wanted};
use crate::tables::{clear, has};
use crate::waits::{Wait, Waits};
use lit_trail::Trail;
use normal_program::{Ground, NRule};
use std::alloc::Global;
use tel_base::Memory;

/// The variables that are found to be supported, and what is left to do.
#[derive(Drop)]
pub struct Support {
    /// For each variable whether it was found.
    pub found: Vec<bool>,
    /// The variables that were found and whose waiting rules weren't looked at again.
    pub fresh: Vec<u32>,
    /// The rules that wait for a variable.
    pub waits: Waits,
}

/// Whether a rule may support its head.
fn is_live(ground: &Ground, trail: &Trail, bound: usize, rule: &NRule) -> bool
    ensures { result ≡ is_live trail.now.entries (wanted_below ground.now trail.now.entries bound) rule.now }
{
    match rule.head {
        Some(head) => !is_off(trail, rule) && is_wanted(ground, trail, bound, head),
        None => false,
    }
}

/// The first place from this one on whose variable is wanted and wasn't found, or the length.
fn blocker(
    ground: &Ground,
    trail: &Trail,
    bound: usize,
    found: &[bool],
    vars: &[u32],
    from: usize,
) -> usize
    requires from { from ≤ length vars.now }
    requires passed { IsTrue (all_of (wanted_below ground.now trail.now.entries bound) (at found.now) (take from vars.now)) }
    ensures short { result ≤ length vars.now }
    ensures passed { IsTrue (all_of (wanted_below ground.now trail.now.entries bound) (at found.now) (take result vars.now)) }
    ensures blocked { result < length vars.now → IsTrue (rest_of (wanted_below ground.now trail.now.entries bound) (at found.now) (slice_index_or vars.now result 0)) }
{
    for place in from..vars.len() {
        let var = vars[place];
        if is_wanted(ground, trail, bound, var) && !has(found, var) {
            return place;
        }
    }
    vars.len()
}

/// Takes a head in, if it isn't there.
fn take_in(found: &mut Vec<bool>, fresh: &mut Vec<u32>, head: u32) -> Result<(), Memory>
    requires { head < length found.old.items }
    ensures found { OnOk result (found.new.items ≡ found_with found.old.items head) }
    ensures fresh { OnOk result (fresh.new.items ≡ fresh_with found.old.items fresh.old.items head) }
{
    if !has(found, head) {
        fresh.push(head)?;
        found[head as usize] = true;
    }
    Ok(())
}

impl Support {
    /// Nothing found yet, and no room.
    pub fn new(alloc: Global) -> Support {
        Support {
            found: Vec::new(alloc),
            fresh: Vec::new(alloc),
            waits: Waits::new(alloc),
        }
    }

    /// Puts a rule where it waits next, or takes its head in.
    fn go_on(
        &mut self,
        ground: &Ground,
        trail: &Trail,
        bound: usize,
        wait: Wait,
    ) -> Result<(), Memory>
        requires scan { IsScan ground.now trail.now.entries bound (state_of self.old) }
        requires wait { IsWait ground.now trail.now.entries bound self.old.found.items wait }
        ensures scan { OnOk result (IsScan ground.now trail.now.entries bound (state_of self.new)) }
        ensures step { OnOk result (IsStep ground.now trail.now.entries bound wait.rule (state_of self.old) (state_of self.new)) }
    {
        let rule = &ground.rules()[wait.rule];
        let vars = rule.pos.as_slice();
        let place = blocker(ground, trail, bound, &self.found, vars, wait.place);
        if place < vars.len() {
            let next = Wait {
                rule: wait.rule,
                place,
            };
            return Ok(self.waits.add(vars[place], next)?);
        }
        match rule.head {
            Some(head) => Ok(take_in(&mut self.found, &mut self.fresh, head)?),
            None => Ok(()),
        }
    }

    /// Puts each rule that may support its head where it waits first, or takes its head in.
    fn start(&mut self, ground: &Ground, trail: &Trail, bound: usize) -> Result<(), Memory>
        requires { IsScan ground.now trail.now.entries bound (state_of self.old) }
        ensures scan { OnOk result (IsScan ground.now trail.now.entries bound (state_of self.new)) }
        ensures served { OnOk result (AreServed ground.now trail.now.entries bound none (length ground.now.rules) (state_of self.new)) }
    {
        let rules = ground.rules();
        for number in 0..rules.len() {
            if is_live(ground, trail, bound, &rules[number]) {
                let wait = Wait {
                    rule: number,
                    place: 0,
                };
                self.go_on(ground, trail, bound, wait)?;
            }
        }
        Ok(())
    }

    /// Looks again at the rules that wait for a variable that was found.
    fn release(
        &mut self,
        ground: &Ground,
        trail: &Trail,
        bound: usize,
        var: u32,
    ) -> Result<(), Memory>
        requires scan { IsScan ground.now trail.now.entries bound (state_of self.old) }
        requires found { IsTrue (at self.old.found.items var) }
        requires served { AreServed ground.now trail.now.entries bound (λ v. var == v) (length ground.now.rules) (state_of self.old) }
        ensures scan { OnOk result (IsScan ground.now trail.now.entries bound (state_of self.new)) }
        ensures served { OnOk result (AreServed ground.now trail.now.entries bound none (length ground.now.rules) (state_of self.new)) }
        ensures work { OnOk result (missing self.new.found.items + length self.new.fresh.items ≤ missing self.old.found.items + length self.old.fresh.items) }
    {
        'waiting: while let Some(wait) = self.waits.take(var) {
            self.go_on(ground, trail, bound, wait)?;
        }
        Ok(())
    }

    /// Finds the least set of supported variables. It takes time linear in the rules and their literals.
    pub fn find(&mut self, ground: &Ground, trail: &Trail, bound: usize) -> Result<(), Memory>
        ensures least { OnOk result (LeastFrom ground.now.rules trail.now.entries (wanted_below ground.now trail.now.entries bound) (replicate bound false) self.new.found.items) }
        ensures closed { OnOk result (IsTrue (is_kept ground.now.rules trail.now.entries (wanted_below ground.now trail.now.entries bound) (at self.new.found.items))) }
        ensures len { OnOk result (length self.new.found.items ≡ bound) }
    {
        clear(&mut self.found, bound)?;
        self.fresh.clear();
        self.waits.clear(bound)?;
        self.start(ground, trail, bound)?;
        'scanning: while let Some(var) = self.fresh.pop() {
            self.release(ground, trail, bound, var)?;
        }
        Ok(())
    }
}
