ghost use Rattle.std.specs.Prelude.{◌≡◌, ◌<◌, ◌≤◌, ◌+◌, ◌-◌, ◌^◌, ℕ, IfOk, vec_len, length, slice_index_or, false};
ghost use Rattle.std.specs.List.{filter, range_with_len};
ghost use Rattle.horizon_external.specs.Occurring.{occurs};
ghost use Rattle.horizon_external.specs.Open.{open_vars_of};

use crate::occurring::add_module;
use atom_space::AtomSpace;
use normal_program::StepModule;
use sqlite_items::Items;
use std::alloc::Global;
use tel_base::Memory;

/// For each of `width` variables from `low` on, whether it is among these.
fn marked(alloc: Global, low: u32, width: u32, vars: &[u32]) -> Result<Vec<bool>, Memory>
    ensures len { IfOk result (λ marks. vec_len marks ≡ width) }
    ensures marks { IfOk result (λ marks. (k : ℕ) → k < width → slice_index_or marks.items k false ≡ occurs (low + k) vars.now) }
{
    let mut marks = vec![in alloc; false; width as usize]?;
    for var in vars {
        if *var >= low && *var - low < width {
            marks[(*var - low) as usize] = true;
        }
    }
    Ok(marks)
}

/// The marked variables from `low` on.
fn with_marks(alloc: Global, low: u32, marks: &[bool]) -> Result<Items<u32>, Memory>
    requires small { low + length marks.now < 2 ^ 32 }
    ensures { IfOk result (λ list. list ≡ filter (λ var. slice_index_or marks.now (var - low) false) (range_with_len low (length marks.now))) }
{
    let mut list = Items::new(alloc);
    let mut var = low;
    for mark in marks {
        if *mark {
            list.push(var)?;
        }
        var += 1;
    }
    Ok(list)
}

/// The open variables of a module, rising: those of the state after it that it speaks of.
pub fn open_vars(alloc: Global, step: &StepModule, space: &AtomSpace) -> Result<Items<u32>, Memory>
    requires state { step.now.t < space.now.greatest }
    ensures { IfOk result (λ vars. vars ≡ open_vars_of space.now.counts step.now) }
{
    let width = space.width();
    let low = (step.t + 1) * width;
    let mut vars = Items::new(alloc);
    add_module(&mut vars, step)?;
    let marks = marked(alloc, low, width, vars.as_slice())?;
    with_marks(alloc, low, marks.as_slice())
}
