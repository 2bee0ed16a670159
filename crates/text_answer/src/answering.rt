//! The answer to texts: their verdict, and what is printed for it.
ghost use Rattle.std.specs.Prelude.{◌≡◌, ℕ, ◌<◌, ◌≤◌, ◌^◌, ◌*◌, List, max, length, IsTrue, IfOk, IfErr, OnOk};
ghost use Rattle.tel_rule.specs.Ground.{IsGround};
ghost use Rattle.part_syntax.specs.Programs.{total_bytes};
ghost use Rattle.program_theory.specs.Ready.{IsReadable, IsReady};
ghost use Rattle.fact_instantiate.specs.Instantiated.{most_places, template_width, IsInstantiated, IsGroundFault};
ghost use Rattle.text_answer.specs.Delivery.{code_of, Delivers, TellsFaults};
ghost use Rattle.text_answer.specs.Running.{RunsTemplate};
ghost use Rattle.text_answer.specs.Verdict.{largest_text, Verdict, IsVerdict, places_in, HasOutcome, TellsOfText, ComesOfText, Answers};
ghost use Rattle.text_answer.specs.Refusals.{DeliversFault, DeliversCause, DeliversProgram, DeliversRead};

use crate::refusing::{refuse_at, refuse_large, refuse_named};
use crate::running::{RunFault, print_run};
use crate::status::Status;
use fact_instantiate::{GroundFault, instantiate};
use part_syntax::{ReadFault, read};
use rule_check::{CheckFault, check, key_of};
use std::alloc::Global;
use tel_base::{Sink, Text};
use tel_rule::{Program, Template};
use tel_settings::Settings;

/// Prints a run, and answers its status.
fn answer_template<O: Sink>(
    alloc: Global,
    out: &mut O,
    settings: &Settings,
    template: Template,
) -> Status
    requires { places_in settings.now (template_width template) ≤ most_places }
    ensures delivers { RunsTemplate settings.now template (λ status bytes. Delivers (code_of result) status bytes (O.bytes out.old) (O.bytes out.new)) }
    ensures faults { TellsFaults (code_of result) (O.faults out.old) (O.faults out.new) }
{
    match print_run(alloc, out, settings, template) {
        Ok(status) => status,
        Err(RunFault::Write) => Status::Write,
        Err(RunFault::Memory) => Status::Memory,
    }
}

/// The template of a program, where no statement leaves the range and its states haven't too many places.
fn build(alloc: Global, settings: &Settings, program: Program) -> Result<Template, GroundFault>
    requires { IsReady program }
    ensures template { IfOk result (λ template. IsInstantiated program (max settings.now.imax 1) template) }
    ensures fault { IfErr result (λ fault. IsGroundFault program (max settings.now.imax 1) fault) }
{
    let key = match key_of(alloc, program.statements.as_slice()) {
        Ok(key) => key,
        Err(_) => return Err(GroundFault::Memory),
    };
    instantiate(alloc, key, program, settings.imax.max(1))
}

/// What each template keeps.
fn keeps_ground(template: &Template)
    ensures { IsGround template.now }
{
    let _atoms = template.atoms.len();
}

/// Answers a program without a cause.
fn answer_program<O: Sink>(
    alloc: Global,
    out: &mut O,
    settings: &Settings,
    program: Program,
) -> Status
    requires { IsReady program }
    ensures delivers { DeliversProgram (λ status bytes. Delivers (code_of result) status bytes (O.bytes out.old) (O.bytes out.new)) settings.now program }
    ensures faults { TellsFaults (code_of result) (O.faults out.old) (O.faults out.new) }
{
    match build(alloc, settings, program) {
        Ok(template) => {
            keeps_ground(&template);
            answer_template(alloc, out, settings, template)
        }
        Err(GroundFault::Range(place)) => refuse_at(out, b"Range", place),
        Err(GroundFault::Large) => refuse_large(out),
        Err(GroundFault::Memory) => Status::Memory,
    }
}

/// Answers a program for its first cause.
fn answer_cause<O: Sink>(out: &mut O, cause: &CheckFault) -> Status
    ensures delivers { DeliversCause cause.now (code_of result) (O.bytes out.old) (O.bytes out.new) }
    ensures faults { TellsFaults (code_of result) (O.faults out.old) (O.faults out.new) }
{
    match cause {
        CheckFault::Unbound(place, name) => {
            refuse_named(out, b"error: Unbound ", name.as_slice(), *place)
        }
        CheckFault::Arrow(place) => refuse_at(out, b"Arrow", *place),
        CheckFault::Prime(place) => refuse_at(out, b"Prime", *place),
        CheckFault::Const(place, name) => {
            refuse_named(out, b"error: Const ", name.as_slice(), *place)
        }
        CheckFault::Memory => Status::Memory,
    }
}

/// Answers a program as it is read.
fn answer_read<O: Sink>(alloc: Global, out: &mut O, settings: &Settings, program: Program) -> Status
    requires { IsReadable program }
    ensures delivers { DeliversRead (λ status bytes. Delivers (code_of result) status bytes (O.bytes out.old) (O.bytes out.new)) settings.now program }
    ensures faults { TellsFaults (code_of result) (O.faults out.old) (O.faults out.new) }
{
    match check(alloc, program) {
        Ok(checked) => answer_program(alloc, out, settings, checked.into_program()),
        Err(cause) => answer_cause(out, &cause),
    }
}

/// Answers texts that are no program, for their first fault.
fn answer_fault<O: Sink>(out: &mut O, fault: ReadFault) -> Status
    ensures delivers { DeliversFault fault (code_of result) (O.bytes out.old) (O.bytes out.new) }
    ensures faults { TellsFaults (code_of result) (O.faults out.old) (O.faults out.new) }
{
    match fault {
        ReadFault::BadByte(place) => refuse_at(out, b"BadByte", place),
        ReadFault::NumberRange(place) => refuse_at(out, b"NumberRange", place),
        ReadFault::TooDeep(place) => refuse_at(out, b"TooDeep", place),
        ReadFault::Syntax(place) => refuse_at(out, b"Syntax", place),
        ReadFault::Memory => Status::Memory,
    }
}

/// Answers texts, which aren't too long and not too many.
pub fn answer<O: Sink>(alloc: Global, out: &mut O, settings: &Settings, texts: &[Text]) -> Status
    requires small { total_bytes texts.now ≤ largest_text }
    requires few { length texts.now ≤ 16 }
    ensures delivers { (verdict : Verdict) → IsVerdict settings.now texts.now verdict
        → HasOutcome (λ status bytes. Delivers (code_of result) status bytes (O.bytes out.old) (O.bytes out.new)) settings.now verdict }
    ensures answers { TellsOfText (code_of result) → Answers settings.now texts.now (code_of result) (O.bytes out.old) (O.bytes out.new) }
    ensures kind { ComesOfText (code_of result) }
    ensures faults { TellsFaults (code_of result) (O.faults out.old) (O.faults out.new) }
{
    match read(alloc, texts) {
        Ok(program) => answer_read(alloc, out, settings, program),
        Err(fault) => answer_fault(out, fault),
    }
}
