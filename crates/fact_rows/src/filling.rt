//! Tables that are filled with the rows that facts state.
ghost use Rattle.std.specs.Prelude.{◌≡◌, ◌∷◌, [], map, Some, IfOk, OnOk, IfErr};
ghost use Rattle.tel_rule.specs.declared.statements.Signature.{Signature};
ghost use Rattle.rule_goals.specs.Said.{Numbers};
ghost use Rattle.tel_semantics.specs.Tables.{choices, tuple_rows};
ghost use Rattle.fact_rows.specs.Forms.{name_number, number_in};
ghost use Rattle.fact_rows.specs.Walking.{all_of, AreFull};
ghost use Rattle.fact_rows.specs.Filling.{rows_stated, fact_stated, kind_stated, all_stated, Adds, Overflows};

use crate::numbers::{Form, PredicateNumbers};
use crate::values::Values;
use crate::walking::{columns_of, first_row, turn};
use fact_table::{Row, Tables};
use std::alloc::{AllocError, Global};
use tel_base::Memory;
use tel_rule::{Arg, Fact, Kind, Statement};
use tel_term::Value;

/// Why a program has no tables.
#[derive(Clone, Copy, PartialEq, Eq)]
pub enum RowsFault {
    /// There are more rows than the limit.
    Large,
    /// Want of memory.
    Memory,
}

impl From<AllocError> for RowsFault {
    ghost use Rattle.std.specs.Prelude.{◌≡◌};
    ghost use Rattle.fact_rows.specs.declared.filling.RowsFault.TheVariants as faults;

    ghost from_gives = { λ _ fault. fault ≡ faults.Memory };

    fn from(_: AllocError) -> RowsFault {
        RowsFault::Memory
    }
}

impl From<Memory> for RowsFault {
    ghost use Rattle.std.specs.Prelude.{◌≡◌};
    ghost use Rattle.fact_rows.specs.declared.filling.RowsFault.TheVariants as faults;

    ghost from_gives = { λ _ fault. fault ≡ faults.Memory };

    fn from(_: Memory) -> RowsFault {
        RowsFault::Memory
    }
}

/// Tables, and for how many rows the limit leaves room.
#[derive(Drop)]
pub struct Filling {
    pub tables: Tables,
    pub left: usize,
}

/// A copy of a row.
fn row_of(alloc: Global, values: &[Value]) -> Result<Row, Memory>
    ensures { IfOk result (λ row. row ≡ values.now) }
{
    let values = Vec::from_slice(alloc, values)?;
    Ok(Row::from_vec(values))
}

impl Filling {
    /// Adds a row to the table with this number.
    fn add_row(&mut self, table: u32, row: Row) -> Result<(), RowsFault>
        ensures added { OnOk result ((number : Numbers) (predicate : Signature) → number predicate ≡ Some table → Adds number ((predicate, row) ∷ []) self.old self.new) }
        ensures large { IfErr result (λ fault. fault ≡ RowsFault.Large → (number : Numbers) (predicate : Signature) → number predicate ≡ Some table → Overflows number ((predicate, row) ∷ []) self.old) }
    {
        if self.tables.rows(table).len() >= u32::MAX as usize {
            return Err(RowsFault::Memory);
        }
        let is_new = match self.tables.add(table, row) {
            Ok(is_new) => is_new,
            Err(_) => return Err(RowsFault::Memory),
        };
        if !is_new {
            return Ok(());
        }
        if self.left == 0 {
            return Err(RowsFault::Large);
        }
        self.left -= 1;
        Ok(())
    }

    /// Adds the rows with these values in their columns to the table with this number.
    fn add_rows(&mut self, alloc: Global, table: u32, columns: &[Values]) -> Result<(), RowsFault>
        requires { AreFull columns.now }
        ensures added { OnOk result ((number : Numbers) (predicate : Signature) → number predicate ≡ Some table → Adds number (rows_stated (Some table) predicate (choices (map all_of columns.now))) self.old self.new) }
        ensures large { IfErr result (λ fault. fault ≡ RowsFault.Large → (number : Numbers) (predicate : Signature) → number predicate ≡ Some table → Overflows number (rows_stated (Some table) predicate (choices (map all_of columns.now))) self.old) }
    {
        let mut row = first_row(alloc, columns)?;
        let mut more = true;
        'rows: while more {
            let copy = row_of(alloc, row.as_slice())?;
            match self.add_row(table, copy) {
                Ok(()) => {}
                Err(fault) => return Err(fault),
            }
            more = turn(columns, row.as_mut_slice());
        }
        Ok(())
    }

    /// Adds the rows of a tuple to the table with this number, if it has one.
    fn add_tuple(
        &mut self,
        alloc: Global,
        table: Option<u32>,
        tuple: &[Arg],
    ) -> Result<(), RowsFault>
        ensures added { OnOk result ((number : Numbers) (predicate : Signature) → number predicate ≡ table → Adds number (rows_stated table predicate (tuple_rows tuple.now)) self.old self.new) }
        ensures large { IfErr result (λ fault. fault ≡ RowsFault.Large → (number : Numbers) (predicate : Signature) → number predicate ≡ table → Overflows number (rows_stated table predicate (tuple_rows tuple.now)) self.old) }
    {
        let table = match table {
            Some(table) => table,
            None => return Ok(()),
        };
        match columns_of(alloc, tuple)? {
            Some(columns) => self.add_rows(alloc, table, columns.as_slice()),
            None => Ok(()),
        }
    }

    /// Adds the rows of a fact whose name has this number.
    fn add_tuples(
        &mut self,
        alloc: Global,
        numbers: &PredicateNumbers,
        name: usize,
        fact: &Fact,
    ) -> Result<(), RowsFault>
        requires { name ≡ name_number numbers.now.names.keys fact.now.name }
        ensures added { OnOk result (Adds (number_in numbers.now) (fact_stated (number_in numbers.now) fact.now) self.old self.new) }
        ensures large { IfErr result (λ fault. fault ≡ RowsFault.Large → Overflows (number_in numbers.now) (fact_stated (number_in numbers.now) fact.now) self.old) }
    {
        for tuple in fact.tuples.as_slice() {
            let form = Form {
                name,
                negative: fact.negative,
                arity: tuple.len(),
            };
            let table = numbers.form_number(form);
            match self.add_tuple(alloc, table, tuple.as_slice()) {
                Ok(()) => {}
                Err(fault) => return Err(fault),
            }
        }
        Ok(())
    }

    /// Adds the rows of a statement.
    fn add_statement(
        &mut self,
        alloc: Global,
        numbers: &PredicateNumbers,
        statement: &Statement,
    ) -> Result<(), RowsFault>
        ensures added { OnOk result (Adds (number_in numbers.now) (kind_stated (number_in numbers.now) statement.now.kind) self.old self.new) }
        ensures large { IfErr result (λ fault. fault ≡ RowsFault.Large → Overflows (number_in numbers.now) (kind_stated (number_in numbers.now) statement.now.kind) self.old) }
    {
        match &statement.kind {
            Kind::Facts(fact) => {
                let name = numbers.name_number(&fact.name);
                self.add_tuples(alloc, numbers, name, fact)
            }
            Kind::Rule(_, _) => Ok(()),
            Kind::Const(_, _) => Ok(()),
            Kind::Show(_) => Ok(()),
        }
    }

    /// Adds the rows of statements.
    pub fn add_statements(
        &mut self,
        alloc: Global,
        numbers: &PredicateNumbers,
        statements: &[Statement],
    ) -> Result<(), RowsFault>
        ensures added { OnOk result (Adds (number_in numbers.now) (all_stated (number_in numbers.now) statements.now) self.old self.new) }
        ensures large { IfErr result (λ fault. fault ≡ RowsFault.Large → Overflows (number_in numbers.now) (all_stated (number_in numbers.now) statements.now) self.old) }
    {
        for statement in statements {
            match self.add_statement(alloc, numbers, statement) {
                Ok(()) => {}
                Err(fault) => return Err(fault),
            }
        }
        Ok(())
    }
}
