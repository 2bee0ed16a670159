//! Small texts as templates.
ghost use Rattle.std.specs.Prelude.{◌<◌, ◌≤◌, length, IfOk};
ghost use Rattle.part_syntax.specs.Programs.{total_bytes};
ghost use Rattle.program_theory.specs.Ready.{IsReadable, IsReady};

use anyhow::{Result, bail, ensure};
use fact_instantiate::instantiate;
use part_syntax::read;
use rule_check::{check, key_of};
use std::alloc::Global;
use tel_base::Text;
use tel_rule::{Program, Template};

/// More bytes than a small text has.
const MANY: usize = 1000;

/// A small text alone.
fn one_text(alloc: Global, text: &str) -> Result<Vec<Text>>
    ensures bytes { IfOk result (λ texts. total_bytes texts.items < MANY) }
    ensures one { IfOk result (λ texts. length texts.items ≤ 16) }
{
    let bytes = text.as_bytes();
    ensure!(bytes.len() < MANY, "a text is too long");
    let mut texts = Vec::new(alloc);
    texts.push(Text::from_slice(alloc, bytes)?)?;
    Ok(texts)
}

/// The program of a small text.
fn read_text(alloc: Global, text: &str) -> Result<Program>
    ensures { IfOk result (λ program. IsReadable program) }
{
    let texts = one_text(alloc, text)?;
    let program = read(alloc, texts.as_slice())?;
    Ok(program)
}

/// The program with its constants replaced, where no cause stands in it.
fn passed(alloc: Global, program: Program) -> Result<Program>
    requires { IsReadable program }
    ensures { IfOk result (λ program. IsReady program) }
{
    let checked = match check(alloc, program) {
        Ok(checked) => checked,
        Err(_) => bail!("a program has a cause"),
    };
    Ok(checked.into_program())
}

/// The template of a small text for lengths up to the greatest one.
pub fn template_of(alloc: Global, text: &str, greatest: u32) -> Result<Template>
    requires { 1 ≤ greatest }
{
    let program = passed(alloc, read_text(alloc, text)?)?;
    let key = key_of(alloc, program.statements.as_slice())?;
    let template = instantiate(alloc, key, program, greatest)?;
    Ok(template)
}
