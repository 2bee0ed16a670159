//! Writes the lines of clauses whose literals stand in any order.
ghost use Rattle.std.specs.Prelude.{◌≡◌, OnOk};
ghost use Rattle.normal_program.specs.ModuleClauses.{in_order};
ghost use Rattle.proof_log.specs.Lines.{line_text, line_of};
ghost use Rattle.proof_log.specs.declared.line.Line.TheVariants as lines;
ghost use Rattle.search_log.specs.Writing.{WritesText, AreDistinct};

use crate::fault::ListFault;
use proof_log::{Kind, write_clause, write_end, write_length, write_loop};
use std::alloc::Global;
use tel_base::{Lit, Memory, Sink};

/// The variable of a literal.
fn variable(lit: &Lit) -> u32
    ensures { result ≡ lit.now.var }
{
    lit.var
}

/// Writes lines of clauses, whose literals it puts in order. It has one vector for this, so lines take memory only where one is
/// longer than all before it.
#[derive(Drop)]
pub struct LineWriter {
    lits: Vec<Lit>,
}

impl LineWriter {
    /// A writer. It takes no memory yet.
    pub fn new(alloc: Global) -> LineWriter {
        LineWriter {
            lits: Vec::new(alloc),
        }
    }

    /// Takes the literals of a clause, and puts them in order.
    fn sort(&mut self, clause: &[Lit]) -> Result<(), Memory>
        requires { AreDistinct clause.now }
        ensures { OnOk result (self.new.lits.items ≡ in_order clause.now) }
    {
        self.lits.clear();
        self.lits.extend_from_slice(clause)?;
        self.lits.sort_unstable_by_key(variable);
        Ok(())
    }

    /// Writes the line of a clause of this kind, by rising variable. Of a line that isn't written whole a front is.
    pub fn write_clause<L: Sink>(
        &mut self,
        log: &mut L,
        kind: Kind,
        clause: &[Lit],
    ) -> Result<(), ListFault>
        requires { AreDistinct clause.now }
        ensures { WritesText result (line_text (line_of kind (in_order clause.now))) (L.bytes log.old) (L.bytes log.new) (L.faults log.old) (L.faults log.new) }
    {
        match self.sort(clause) {
            Ok(()) => {}
            Err(_) => return Err(ListFault::Memory),
        }
        match write_clause(log, kind, self.lits.as_slice()) {
            Ok(()) => Ok(()),
            Err(_) => Err(ListFault::Write),
        }
    }

    /// Writes the line of a loop clause, by rising variable, with its first atom and its set. Of a line that isn't written whole a
    /// front is.
    pub fn write_loop<L: Sink>(
        &mut self,
        log: &mut L,
        atom: u32,
        set: &[u32],
        clause: &[Lit],
    ) -> Result<(), ListFault>
        requires { AreDistinct clause.now }
        ensures { WritesText result (line_text (lines.Loop atom set.now (in_order clause.now))) (L.bytes log.old) (L.bytes log.new) (L.faults log.old) (L.faults log.new) }
    {
        match self.sort(clause) {
            Ok(()) => {}
            Err(_) => return Err(ListFault::Memory),
        }
        match write_loop(log, atom, set, self.lits.as_slice()) {
            Ok(()) => Ok(()),
            Err(_) => Err(ListFault::Write),
        }
    }
}

/// Writes the line that begins a length. Of a line that isn't written whole a front is.
pub fn begin_length<L: Sink>(log: &mut L, n: u32) -> Result<(), ListFault>
    ensures { WritesText result (line_text (lines.Length n)) (L.bytes log.old) (L.bytes log.new) (L.faults log.old) (L.faults log.new) }
{
    match write_length(log, n) {
        Ok(()) => Ok(()),
        Err(_) => Err(ListFault::Write),
    }
}

/// Writes the line that says that a length is complete. Of a line that isn't written whole a front is.
pub fn end_length<L: Sink>(log: &mut L, n: u32) -> Result<(), ListFault>
    ensures { WritesText result (line_text (lines.End n)) (L.bytes log.old) (L.bytes log.new) (L.faults log.old) (L.faults log.new) }
{
    match write_end(log, n) {
        Ok(()) => Ok(()),
        Err(_) => Err(ListFault::Write),
    }
}
