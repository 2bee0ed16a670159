//! The variables that the rows of tables bind.
ghost use Rattle.std.specs.Prelude.{◌≡◌, ◌<◌, ℕ, Bool, IfOk, vec_len};
ghost use Rattle.tel_base.specs.Members.{In};
ghost use Rattle.tel_rule.specs.declared.statements.Signature.{Signature};
ghost use Rattle.tel_semantics.specs.Tables.{predicate_of};
ghost use Rattle.rule_binding.specs.Binding.{has, whole_var, one_var, is_table_atom, whole_args, item_row_vars, row_vars};
ghost use Rattle.rule_binding.specs.Closure.{marked};
ghost use Rattle.rule_settings.specs.Candidates.{AreMarked, MarksMore};

use rule_binding::whole_variable;
use std::alloc::Global;
use tel_base::Memory;
use tel_rule::{Atom, LitItem, Literal};
use tel_term::Expr;

/// A test of which predicates are tables.
pub trait TableTest {
    /// The predicates that are tables.
    ghost tables: { Self → Signature → Bool };

    /// Whether the predicate of an atom is a table.
    fn has_table(&self, atom: &Atom) -> bool
        ensures { result ≡ tables self.now (predicate_of atom.now) };
}

/// Marks the variable that an argument is as a whole, where it is one.
fn mark_arg(arg: &Expr, marks: &mut [bool])
    ensures { MarksMore marks.old marks.new (one_var (whole_var arg.now)) }
{
    if let Some(var) = whole_variable(arg) {
        let at = var as usize;
        if at < marks.len() {
            marks[at] = true;
        }
    }
}

/// Marks the variables that are whole arguments.
fn mark_args(args: &[Expr], marks: &mut [bool])
    ensures { MarksMore marks.old marks.new (whole_args args.now) }
{
    for arg in args {
        mark_arg(arg, marks);
    }
}

/// Whether an atom behind so many `not` is a positive unprimed one of a table.
fn is_table_atom<T: TableTest>(tables: &T, nots: u32, atom: &Atom) -> bool
    ensures { result ≡ is_table_atom (T.tables tables.now) nots atom.now }
{
    nots == 0 && atom.before == 0 && atom.after == 0 && tables.has_table(atom)
}

/// Marks the variables that a literal binds.
fn mark_literal<T: TableTest>(tables: &T, literal: &Literal, marks: &mut [bool])
    ensures { MarksMore marks.old marks.new (item_row_vars (T.tables tables.now) literal.now.nots literal.now.item) }
{
    match &literal.item {
        LitItem::Atom(atom) => {
            if is_table_atom(tables, literal.nots, atom) {
                mark_args(atom.args.as_slice(), marks);
            }
        }
        LitItem::Tel(_) => {}
        LitItem::Compare(_, _, _) => {}
    }
}

/// Marks the variables that a body binds.
fn mark_body<T: TableTest>(tables: &T, body: &[Literal], marks: &mut [bool])
    ensures { MarksMore marks.old marks.new (row_vars (T.tables tables.now) body.now) }
{
    for literal in body {
        mark_literal(tables, literal, marks);
    }
}

/// Marks of so many variables, which are those that a body binds.
fn marked_rows<T: TableTest>(
    alloc: Global,
    tables: &T,
    vars: usize,
    body: &[Literal],
) -> Result<Vec<bool>, Memory>
    ensures marks { IfOk result (λ marks. (v : ℕ) → v < vars → marked marks.items v ≡ has (row_vars (T.tables tables.now) body.now) v) }
    ensures len { IfOk result (λ marks. vec_len marks ≡ vars) }
{
    let mut marks = vec![in alloc; false; vars]?;
    mark_body(tables, body, marks.as_mut_slice());
    Ok(marks)
}

/// Marks of so many variables: those have one that the table atoms of a body bind, which are a whole
/// argument of a positive unprimed one. Where no such variable is past them, they mark all that are bound
/// so. It takes time linear in the body and in the number of variables.
pub fn mark_row_vars<T: TableTest>(
    alloc: Global,
    tables: &T,
    vars: usize,
    body: &[Literal],
) -> Result<Vec<bool>, Memory>
    ensures marks { IfOk result (λ marks. (v : ℕ) → v < vars → marked marks.items v ≡ has (row_vars (T.tables tables.now) body.now) v) }
    ensures all { IfOk result (λ marks. ((v : ℕ) → In v (row_vars (T.tables tables.now) body.now) → v < vars) → AreMarked marks.items (row_vars (T.tables tables.now) body.now)) }
    ensures len { IfOk result (λ marks. vec_len marks ≡ vars) }
{
    let marks = marked_rows(alloc, tables, vars, body)?;
    Ok(marks)
}
