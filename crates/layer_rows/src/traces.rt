//! Lines of the output that no program prints yet: endings by a limit and by a budget, arguments, hidden atoms.
ghost use Rattle.std.specs.Prelude.{◌≡◌, false, [], ◌∷◌, IfOk, IsTrue, length};
ghost use Rattle.std.specs.List.{list_all};
ghost use Rattle.tel_term.specs.declared.terms.Term.TheVariants as terms;
ghost use Rattle.tel_term.specs.declared.terms.Value.TheVariants as values;
ghost use Rattle.trace_print.specs.States.{are_below};

use row_tables::{Cause, Value as Given};
use sqlite_items::Items;
use std::alloc::Global;
use tel_base::{Failed, MemSink, Memory, Sink, Text};
use tel_rule::{GroundAtom, Show, Template, Trace};
use tel_semantics::How;
use tel_term::{Symbols, Term, Value};
use trace_print::{print_end, print_length, print_trace};

/// The name p, and the string of a quote, a backslash and a line feed.
fn name_and_string(alloc: Global) -> Result<Symbols, Memory>
    ensures { IfOk result (λ symbols. symbols ≡ terms.Name (112 ∷ []) ∷ terms.Str (34 ∷ 92 ∷ 10 ∷ []) ∷ []) }
{
    let mut symbols = Symbols::new(alloc);
    let _ = symbols.value(Term::Name(Text::from_slice(alloc, b"p")?))?;
    let _ = symbols.value(Term::Str(Text::from_slice(alloc, b"\"\\\n")?))?;
    Ok(symbols)
}

/// A number, the first symbol and the second.
fn three_args(alloc: Global, number: i32) -> Result<Items<Value>, Memory>
    ensures { IfOk result (λ args. args ≡ values.Num number ∷ values.Sym 0 ∷ values.Sym 1 ∷ []) }
{
    let mut args = Items::new(alloc);
    args.push(Value::Num(number))?;
    args.push(Value::Sym(0))?;
    args.push(Value::Sym(1))?;
    Ok(args)
}

/// The plain atom of the first symbol with these arguments.
fn atom_with(alloc: Global, args: Items<Value>) -> Result<Items<GroundAtom>, Memory>
    ensures { IfOk result (λ atoms. atoms ≡ record { negative = false; name = 0; args = args } ∷ []) }
{
    let mut atoms = Items::new(alloc);
    atoms.push(GroundAtom {
        negative: false,
        name: 0,
        args,
    })?;
    Ok(atoms)
}

/// A program with no rules over one atom with three arguments, which is shown or not.
fn one_atom(alloc: Global, shown: bool) -> Result<Template, Memory>
    ensures { IfOk result (λ template. length template.atoms ≡ 1) }
{
    let symbols = name_and_string(alloc)?;
    let args = three_args(alloc, -3)?;
    let atoms = atom_with(alloc, args)?;
    let show = if shown {
        Show::All
    } else {
        Show::Only(Items::new(alloc))
    };
    Ok(Template {
        symbols,
        atoms,
        pairs: Items::new(alloc),
        nodes: Items::new(alloc),
        instances: Items::new(alloc),
        show,
    })
}

/// A trace of one state, in which the first atom is true.
fn one_state(alloc: Global) -> Result<Trace, Memory>
    ensures { IfOk result (λ trace. trace ≡ (0 ∷ []) ∷ []) }
{
    let mut states = Items::new(alloc);
    states.push(Items::from_slice(alloc, &[0])?)?;
    Ok(Trace { states })
}

/// Prints a header, a trace and closing lines of all kinds.
fn print<O: Sink>(out: &mut O, template: &Template, trace: &Trace) -> Result<(), Failed>
    requires { IsTrue (list_all (are_below (length template.now.atoms)) trace.now) }
{
    print_length(out, 4294967295)?;
    print_trace(out, template, trace)?;
    print_end(out, How::Complete, 2)?;
    print_end(out, How::Limit, 0)?;
    print_end(out, How::Budget, u64::MAX)
}

/// What is printed of a trace in which an atom is true that is shown or not, as the row says.
pub fn printed(alloc: Global, given: &[Given]) -> Result<Vec<u8>, Cause> {
    let shown = match given {
        [Given::Text(word)] => word.as_slice() == b"shown".as_slice(),
        _ => return Err(Cause::Values),
    };
    let template = one_atom(alloc, shown)?;
    let trace = one_state(alloc)?;
    let mut sink = MemSink::new(alloc, 4096, 7, Vec::new(alloc))?;
    let _ = print(&mut sink, &template, &trace);
    Ok(Vec::from_slice(alloc, sink.bytes())?)
}
