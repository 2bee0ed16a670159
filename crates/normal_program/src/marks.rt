//! For each variable a mark.

ghost use Rattle.std.specs.Prelude.{◌≡◌, ◌<◌, ◌≤◌, ◌==◌, ◌||◌, ℕ, OnOk, OnErr, IsTrue, false, nat_lt, vec_len, slice_index_or};
ghost use Rattle.std.specs.List.{list_all, list_any};
ghost use Rattle.normal_program.specs.declared.shapes.NodeRule.{NodeRule};

use crate::shapes::NodeRule;
use std::alloc::Global;
use tel_base::Memory;

/// A number above all these atoms.
fn above_atoms(atoms: &[u32]) -> usize
    ensures { IsTrue (list_all (λ var. nat_lt var result) atoms.now) }
{
    let mut size: usize = 0;
    for atom in atoms {
        size = size.max(*atom as usize + 1);
    }
    size
}

/// A number above the variables of all these nodes.
fn above_nodes(nodes: &[NodeRule]) -> usize
    ensures { IsTrue (list_all (λ (node : NodeRule). nat_lt node.var result) nodes.now) }
{
    let mut size: usize = 0;
    for node in nodes {
        size = size.max(node.var as usize + 1);
    }
    size
}

/// Makes room for marks of so many variables.
fn grow(marks: &mut Vec<bool>, size: usize) -> Result<(), Memory>
    ensures marks { (var : ℕ) → slice_index_or marks.new.items var false ≡ slice_index_or marks.old.items var false }
    ensures size { OnOk result (size ≤ vec_len marks.new) }
    ensures stays { vec_len marks.old ≤ vec_len marks.new }
{
    for _ in marks.len()..size {
        marks.push(false)?;
    }
    Ok(())
}

/// Makes room for the marks of these atoms and nodes.
pub fn make_room(marks: &mut Vec<bool>, atoms: &[u32], nodes: &[NodeRule]) -> Result<(), Memory>
    ensures marks { (var : ℕ) → slice_index_or marks.new.items var false ≡ slice_index_or marks.old.items var false }
    ensures atoms { OnOk result (IsTrue (list_all (λ var. nat_lt var (vec_len marks.new)) atoms.now)) }
    ensures nodes { OnOk result (IsTrue (list_all (λ (node : NodeRule). nat_lt node.var (vec_len marks.new)) nodes.now)) }
{
    grow(marks, above_atoms(atoms))?;
    grow(marks, above_nodes(nodes))?;
    Ok(())
}

/// Marks these atoms.
pub fn mark_atoms(marks: &mut Vec<bool>, atoms: &[u32])
    requires room { IsTrue (list_all (λ var. nat_lt var (vec_len marks.old)) atoms.now) }
    ensures len { vec_len marks.new ≡ vec_len marks.old }
    ensures marks { (var : ℕ) → slice_index_or marks.new.items var false ≡ (slice_index_or marks.old.items var false || list_any (λ atom. atom == var) atoms.now) }
{
    for atom in atoms {
        marks[*atom as usize] = true;
    }
}

/// Marks the variables of these nodes.
pub fn mark_nodes(marks: &mut Vec<bool>, nodes: &[NodeRule])
    requires room { IsTrue (list_all (λ (node : NodeRule). nat_lt node.var (vec_len marks.old)) nodes.now) }
    ensures marks { (var : ℕ) → slice_index_or marks.new.items var false ≡ (slice_index_or marks.old.items var false || list_any (λ (node : NodeRule). node.var == var) nodes.now) }
{
    for node in nodes {
        marks[node.var as usize] = true;
    }
}
