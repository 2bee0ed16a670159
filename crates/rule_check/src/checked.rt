//! Programs that were checked.
ghost use Rattle.std.specs.Prelude.{◌≡◌, ◌≢◌, IfOk, IfErr, OnOk};
ghost use Rattle.tel_rule.specs.declared.statements.Signature.{Signature};
ghost use Rattle.rule_binding.specs.Heads.{tells};
ghost use Rattle.tel_semantics.specs.Tables.{is_table};
ghost use Rattle.rule_constants.specs.Replaced.{IsReplaced};
ghost use Rattle.rule_check.specs.declared.faults.CheckFault.TheVariants as CheckFault;
ghost use Rattle.rule_check.specs.Causes.{IsSound, IsFirstCause};
ghost use Rattle.rule_check.specs.Checking.{IsCheckedProgram};

use crate::checking::first_cause;
use crate::faults::CheckFault;
use crate::names::key_of;
use rule_binding::Tables;
use rule_constants::replaced_statements;
use std::alloc::Global;
use tel_rule::{Program, Signature};

/// A program in which no cause of a `CheckFault` stands, with its constants replaced by their values.
#[derive(Drop)]
pub struct Checked {
    program: Program,
    tables: Tables,
    ghost are_tables: { (predicate : Signature) → tells tables predicate ≡ is_table program.statements predicate },
    ghost is_checked: { ∥ IsCheckedProgram program ∥₁ },
    ghost is_sound: { IsSound program },
}

impl Checked {
    /// The program, with its constants replaced by their values.
    pub fn program(&self) -> &Program
        ensures program { result.now ≡ self.now.program }
        ensures checked { ∥ IsCheckedProgram result.now ∥₁ }
        ensures sound { IsSound result.now }
    {
        &self.program
    }

    /// The program alone, with its constants replaced by their values.
    pub fn into_program(self) -> Program
        ensures program { result ≡ self.program }
        ensures checked { ∥ IsCheckedProgram result ∥₁ }
        ensures sound { IsSound result }
    {
        let Checked { program, .. } = self;
        program
    }

    /// Whether a predicate is a table of the program.
    pub fn is_table(&self, predicate: &Signature) -> bool
        ensures { result ≡ is_table self.now.program.statements predicate.now }
    {
        self.tables.is_table(predicate)
    }
}

/// Checks a program and replaces its constants by their values. It is refused for its first cause, by
/// statement and then in the order of `CheckFault`. It takes time linear in the program.
pub fn check(alloc: Global, program: Program) -> Result<Checked, CheckFault>
    ensures sound { OnOk result (IsSound program) }
    ensures replaced { IfOk result (λ checked. IsReplaced program checked.program) }
    ensures fault { IfErr result (λ fault. fault ≢ CheckFault.Memory → IsFirstCause program fault) }
{
    let key = match key_of(alloc, program.statements.as_slice()) {
        Ok(key) => key,
        Err(_) => return Err(CheckFault::Memory),
    };
    let constants = match first_cause(alloc, key, &program) {
        Ok(constants) => constants,
        Err(fault) => return Err(fault),
    };
    let replaced = replaced_statements(
        alloc,
        constants.links.as_slice(),
        constants.values.as_slice(),
        program.statements.as_slice(),
    );
    let statements = match replaced {
        Ok(statements) => statements,
        Err(_) => return Err(CheckFault::Memory),
    };
    let tables = match Tables::of(alloc, key, statements.as_slice()) {
        Ok(tables) => tables,
        Err(_) => return Err(CheckFault::Memory),
    };
    let Program { symbols, .. } = program;
    Ok(Checked {
        program: Program {
            statements,
            symbols,
        },
        tables,
    })
}
