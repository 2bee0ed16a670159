//! The set that is left where all supported variables were found, and its loop clause.

ghost use Rattle.std.specs.Prelude.{◌≡◌, ◌≤◌, ◌^◌, ◌||◌, ◌&&◌, ℕ, IfOk, IsTrue, Some, false, length, map, replicate};
ghost use Rattle.std.specs.List.{filter, find, list_any, range_with_len};
ghost use Rattle.unfounded_sets.specs.Unfounded.{is_false, is_true, body_lits};
ghost use Rattle.unfounded_sets.specs.LoopClauses.{is_outside, Answers, IsFalseLoop};
ghost use Rattle.unfounded_sets.specs.Least.{wanted_below, at, is_kept, LeastFrom};
ghost use Rattle.unfounded_sets.specs.Marks.{rest_of, all_below, are_below, Below, var_is, marks_by, false_of};

use crate::bodies::{false_lit, is_true, is_wanted};
use crate::founded::LoopNogood;
use crate::tables::{clear, has};
use lit_trail::Trail;
use normal_program::{Ground, NRule};
use std::alloc::Global;
use tel_base::{Clause, Lit, Memory};

/// Whether a variable is left: it is wanted and wasn't found.
fn is_left(ground: &Ground, trail: &Trail, found: &[bool], var: u32) -> bool
    ensures { result ≡ rest_of (wanted_below ground.now trail.now.entries (length found.now)) (at found.now) var }
{
    is_wanted(ground, trail, found.len(), var) && !has(found, var)
}

/// The first variable that is left and true.
fn first_left(ground: &Ground, trail: &Trail, found: &[bool]) -> Option<u32>
    requires { length found.now ≤ 2 ^ 32 }
    ensures { result ≡ find (λ v. rest_of (wanted_below ground.now trail.now.entries (length found.now)) (at found.now) v && is_true trail.now.entries v) (range_with_len 0 (length found.now)) }
{
    for place in 0..found.len() {
        let var = place as u32;
        if is_left(ground, trail, found, var) && is_true(trail, var) {
            return Some(var);
        }
    }
    None
}

/// The variables that are left, rising.
fn all_left(
    alloc: Global,
    ground: &Ground,
    trail: &Trail,
    found: &[bool],
) -> Result<Vec<u32>, Memory>
    requires { length found.now ≤ 2 ^ 32 }
    ensures { IfOk result (λ set. set.items ≡ filter (rest_of (wanted_below ground.now trail.now.entries (length found.now)) (at found.now)) (range_with_len 0 (length found.now))) }
{
    let mut set = Vec::new(alloc);
    for place in 0..found.len() {
        if is_left(ground, trail, found, place as u32) {
            set.push(place as u32)?;
        }
    }
    Ok(set)
}

/// Whether one of these variables is left.
fn any_left(ground: &Ground, trail: &Trail, found: &[bool], vars: &[u32]) -> bool
    ensures { result ≡ list_any (rest_of (wanted_below ground.now trail.now.entries (length found.now)) (at found.now)) vars.now }
{
    for var in vars {
        if is_left(ground, trail, found, *var) {
            return true;
        }
    }
    false
}

/// Whether a rule supports the variables that are left from outside.
fn is_outside(ground: &Ground, trail: &Trail, found: &[bool], rule: &NRule) -> bool
    ensures { result ≡ is_outside (rest_of (wanted_below ground.now trail.now.entries (length found.now)) (at found.now)) rule.now }
{
    match rule.head {
        Some(head) => {
            is_left(ground, trail, found, head)
                && !any_left(ground, trail, found, rule.pos.as_slice())
        }
        None => false,
    }
}

/// Marks the variable of the literal that makes the body of a rule false.
fn mark_body(trail: &Trail, rule: &NRule, marks: &mut [bool])
    requires { Below (length marks.old) trail.now.entries }
    ensures len { length marks.new ≡ length marks.old }
    ensures marks { (v : ℕ) → at marks.new v ≡ (at marks.old v || var_is v (find (is_false trail.now.entries) (body_lits rule.now))) }
{
    if let Some(lit) = false_lit(trail, rule) {
        marks[lit.var as usize] = true;
    }
}

/// Marks the variables of the literals that make the bodies of the rules outside false.
fn mark_bodies(ground: &Ground, trail: &Trail, found: &[bool], marks: &mut [bool])
    requires { Below (length marks.old) trail.now.entries }
    ensures len { length marks.new ≡ length marks.old }
    ensures marks { (v : ℕ) → at marks.new v ≡ (at marks.old v || marks_by trail.now.entries (rest_of (wanted_below ground.now trail.now.entries (length found.now)) (at found.now)) ground.now.rules v) }
{
    for rule in ground.rules() {
        if is_outside(ground, trail, found, rule) {
            mark_body(trail, rule, marks);
        }
    }
}

/// The false literals of the variables that are marked, rising.
fn clause_of(alloc: Global, trail: &Trail, marks: &[bool]) -> Result<Clause, Memory>
    requires { length marks.now ≤ 2 ^ 32 }
    ensures { IfOk result (λ clause. clause ≡ map (false_of trail.now.entries) (filter (at marks.now) (range_with_len 0 (length marks.now)))) }
{
    let mut lits = Vec::new(alloc);
    for place in 0..marks.len() {
        if marks[place] {
            let var = place as u32;
            lits.push(Lit {
                var,
                positive: !is_true(trail, var),
            })?;
        }
    }
    Ok(Clause { lits })
}

/// The set that is left, its first atom that is true, and their loop clause.
fn loop_nogood(
    alloc: Global,
    ground: &Ground,
    trail: &Trail,
    found: &[bool],
    marks: &mut [bool],
    atom: u32,
) -> Result<LoopNogood, Memory>
    requires closed { IsTrue (is_kept ground.now.rules trail.now.entries (wanted_below ground.now trail.now.entries (length found.now)) (at found.now)) }
    requires below { Below (length found.now) trail.now.entries }
    requires small { length found.now ≤ 2 ^ 32 }
    requires marks { marks.old ≡ replicate (length found.now) false }
    requires atom { Some atom ≡ find (λ v. rest_of (wanted_below ground.now trail.now.entries (length found.now)) (at found.now) v && is_true trail.now.entries v) (range_with_len 0 (length found.now)) }
    ensures { IfOk result (λ nogood. IsFalseLoop ground.now trail.now.entries nogood) }
{
    marks[atom as usize] = true;
    mark_bodies(ground, trail, found, marks);
    let set = all_left(alloc, ground, trail, found)?;
    let clause = clause_of(alloc, trail, marks)?;
    Ok(LoopNogood { atom, set, clause })
}

/// The answer of a search that found all supported variables. It uses the table of marks as room.
pub fn answer(
    alloc: Global,
    ground: &Ground,
    trail: &Trail,
    found: &[bool],
    marks: &mut Vec<bool>,
) -> Result<Option<LoopNogood>, Memory>
    requires least { LeastFrom ground.now.rules trail.now.entries (wanted_below ground.now trail.now.entries (length found.now)) (replicate (length found.now) false) found.now }
    requires closed { IsTrue (is_kept ground.now.rules trail.now.entries (wanted_below ground.now trail.now.entries (length found.now)) (at found.now)) }
    requires rules { IsTrue (are_below (length found.now) ground.now.rules) }
    requires trail { Below (length found.now) trail.now.entries }
    requires small { length found.now ≤ 2 ^ 32 }
    ensures { IfOk result (λ answer. Answers ground.now trail.now.entries answer) }
{
    match first_left(ground, trail, found) {
        None => Ok(None),
        Some(atom) => {
            clear(marks, found.len())?;
            let nogood = loop_nogood(alloc, ground, trail, found, marks, atom)?;
            Ok(Some(nogood))
        }
    }
}
