ghost use Rattle.std.specs.Prelude.{◌≡◌, ◌≢◌, ◌^◌, ◌≤◌, length, IfOk, IfErr};
ghost use Rattle.tel_rule.specs.declared.statements.Program.{Program};
ghost use Rattle.part_syntax.specs.declared.fault.ReadFault.{ReadFault};
ghost use Rattle.part_syntax.specs.Programs.{IsProgram, IsFirstFault, total_bytes};

use crate::fault::ReadFault;
use crate::files::read_texts;
use std::alloc::Global;
use tel_base::{HashKey, Text};
use tel_rule::Program;

/// How many levels may be open at once inside the first one.
const FURTHER_LEVELS: u8 = 63;

/// Reads the program of these texts: their statements, one text after another, and the names and
/// strings of their expressions in the order of their first occurrence. The statements of a text
/// are of the initial part, up to the first directive `#program P.`, and behind it of the part P,
/// up to the next one.
///
/// At most 64 levels may be open at once: one for each bracket around an expression or a formula,
/// for each operator before a formula and for each `-` before an expression, up to the end of what
/// stands behind it. `docs/language.md` has the whole grammar.
///
/// Each fault but `Memory` is the first one of the texts and has its place; where a byte that begins
/// no token or a number out of range stands where the tokens before could go on, it is that one.
pub fn read(alloc: Global, texts: &[Text]) -> Result<Program, ReadFault>
    requires bytes { total_bytes texts.now ≤ 2 ^ 20 }
    requires files { length texts.now ≤ 16 }
    ensures ok { IfOk result (λ program. IsProgram texts.now program) }
    ensures only { IfOk result (λ program. (other : Program) → IsProgram texts.now other → other ≡ program) }
    ensures sound { IfOk result (λ program. (fault : ReadFault) → IsFirstFault texts.now fault → ⊥) }
    ensures fault { IfErr result (λ fault. fault ≢ ReadFault.Memory → IsFirstFault texts.now fault) }
    ensures first { IfErr result (λ fault. fault ≢ ReadFault.Memory → (other : ReadFault) → IsFirstFault texts.now other → other ≡ fault) }
    ensures none { IfErr result (λ fault. fault ≢ ReadFault.Memory → (program : Program) → IsProgram texts.now program → ⊥) }
    ensures few { IfOk result (λ program. length program.statements ≤ total_bytes texts.now) }
{
    read_texts(alloc, HashKey::of(texts), FURTHER_LEVELS, texts)
}
