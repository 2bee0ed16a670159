//! Marks of the variables that are bound.
ghost use Rattle.std.specs.Prelude.{◌≡◌, ◌≤◌, ◌||◌, ◌&&◌, ◌==◌, ℕ, IfOk, OnOk, MatchOption, IsTrue, IsFalse, vec_len};
ghost use Rattle.std.specs.List.{list_all};
ghost use Rattle.rule_binding.specs.Binding.{Vars};
ghost use Rattle.rule_binding.specs.Closure.{marked};
ghost use Rattle.rule_binding.specs.Waiting.{Holds};

use sqlite_items::Items;
use std::alloc::Global;
use tel_base::Memory;

/// Whether a variable has a mark.
pub fn is_marked(marks: &[bool], v: u32) -> bool
    ensures { result ≡ marked marks.now v }
{
    marks.get(v as usize).copied().unwrap_or(false)
}

/// These marks, to be changed.
pub fn copy_marks(alloc: Global, marks: &[bool]) -> Result<Vec<bool>, Memory>
    ensures { IfOk result (λ copy. copy.items ≡ marks.now) }
{
    let copy = Vec::from_slice(alloc, marks)?;
    Ok(copy)
}

/// Makes room for so many marks.
fn reach_marks(marks: &mut Vec<bool>, len: usize) -> Result<(), Memory>
    ensures same { OnOk result ((v : ℕ) → marked marks.new.items v ≡ marked marks.old.items v) }
    ensures len { OnOk result (len ≤ vec_len marks.new) }
{
    'room: while marks.len() < len {
        marks.push(false)?;
    }
    Ok(())
}

/// Marks a variable.
pub fn mark(marks: &mut Vec<bool>, v: u32) -> Result<(), Memory>
    ensures { OnOk result ((u : ℕ) → marked marks.new.items u ≡ ((v == u) || marked marks.old.items u)) }
{
    reach_marks(marks, v as usize + 1)?;
    marks[v as usize] = true;
    Ok(())
}

/// Takes a variable without a mark away from these, with all that have one behind it.
pub fn open_need(needs: &mut Items<u32>, marks: &[bool]) -> Option<u32>
    ensures { MatchOption result
        ((X : Vars) → Holds X marks.now → IsTrue (list_all X needs.old))
        (λ v. IsFalse (marked marks.now v) × ((X : Vars) → Holds X marks.now → list_all X needs.old ≡ (list_all X needs.new && X v))) }
{
    'needs: while let Some(v) = needs.pop() {
        if !is_marked(marks, v) {
            return Some(v);
        }
    }
    None
}
