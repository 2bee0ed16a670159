//! The tables of a program.
ghost use Rattle.std.specs.Prelude.{◌≡◌, ◌<◌, List, length, IfOk, IfErr, IsTrue};
ghost use Rattle.tel_term.specs.declared.terms.Term.{Term};
ghost use Rattle.tel_rule.specs.Atoms.{values_eq};
ghost use Rattle.tel_rule.specs.declared.statements.Signature.{Signature};
ghost use Rattle.tel_semantics.specs.Tables.{is_table, stated_rows};
ghost use Rattle.rule_plans.specs.Within.{AreRowsOf};
ghost use Rattle.plan_search.specs.Steps.{RowsHaveTerms};
ghost use Rattle.rule_goals.specs.Numbers.{AreNumbered};
ghost use Rattle.fact_rows.specs.Forms.{number_in, AreApart};
ghost use Rattle.fact_rows.specs.Filling.{same_stated, all_stated, Holds};
ghost use Rattle.fact_rows.specs.Limit.{rows_by, HaveMoreRows, FactsAreWithin};
ghost use Rattle.fact_rows.specs.Once.{each_once};

use crate::filling::{Filling, RowsFault};
use crate::numbers::PredicateNumbers;
use fact_table::Tables;
use std::alloc::Global;
use tel_base::HashKey;
use tel_rule::Statement;

/// The tables of a program with their rows.
#[derive(Drop)]
pub struct ProgramTables {
    numbers: PredicateNumbers,
    tables: Tables,
}

/// The rows of the tables with these numbers, and for how many the limit leaves room.
fn fill(
    alloc: Global,
    key: HashKey,
    numbers: &PredicateNumbers,
    statements: &[Statement],
    most: usize,
) -> Result<Filling, RowsFault>
    requires { AreApart (number_in numbers.now) }
    ensures filled { IfOk result (λ filling. Holds (number_in numbers.now) most (all_stated (number_in numbers.now) statements.now) filling) }
    ensures large { IfErr result (λ fault. fault ≡ RowsFault.Large → most < length (each_once same_stated (all_stated (number_in numbers.now) statements.now))) }
{
    let mut filling = Filling {
        tables: Tables::keyed(alloc, key),
        left: most,
    };
    match filling.add_statements(alloc, numbers, statements) {
        Ok(()) => Ok(filling),
        Err(fault) => Err(fault),
    }
}

impl ProgramTables {
    /// The tables of a program with these statements, where they have at most `most` rows in all. Rows count
    /// once however often they are stated. What is hashed is hashed by this key, which changes no answer. It
    /// takes time linear in the statements and in the rows that they state, and no row is made behind the first
    /// one that is too many.
    pub fn of(
        alloc: Global,
        key: HashKey,
        statements: &[Statement],
        most: usize,
    ) -> Result<ProgramTables, RowsFault>
        ensures numbered { IfOk result (λ found. AreNumbered (number_in found.numbers) statements.now (rows_by (number_in found.numbers) found.tables) found.tables) }
        ensures apart { IfOk result (λ found. AreApart (number_in found.numbers)) }
        ensures rows { IfOk result (λ found. (predicate : Signature) → IsTrue (is_table statements.now predicate) → rows_by (number_in found.numbers) found.tables predicate ≡ each_once values_eq (stated_rows statements.now predicate)) }
        ensures are_rows { IfOk result (λ found. (symbols : List Term) → FactsAreWithin symbols statements.now → AreRowsOf statements.now symbols (rows_by (number_in found.numbers) found.tables)) }
        ensures terms { IfOk result (λ found. (symbols : List Term) → FactsAreWithin symbols statements.now → RowsHaveTerms symbols found.tables) }
        ensures at_most { IfOk result (λ found. HaveMoreRows statements.now most → ⊥) }
        ensures large { IfErr result (λ fault. fault ≡ RowsFault.Large → HaveMoreRows statements.now most) }
    {
        let numbers = PredicateNumbers::of(alloc, key, statements)?;
        match fill(alloc, key, &numbers, statements, most) {
            Ok(filling) => Ok(ProgramTables {
                numbers,
                tables: filling.tables,
            }),
            Err(fault) => Err(fault),
        }
    }

    /// The number of the table of each predicate that is one.
    pub fn numbers(&self) -> &PredicateNumbers
        ensures { result.now ≡ self.now.numbers }
    {
        &self.numbers
    }

    /// The rows of the tables, by number.
    pub fn tables(&self) -> &Tables
        ensures { result.now ≡ self.now.tables }
    {
        &self.tables
    }
}
