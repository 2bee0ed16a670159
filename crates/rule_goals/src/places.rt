//! Places of the arguments of table atoms.
ghost use Rattle.std.specs.Prelude.{◌≡◌, IfOk, suc};
ghost use Rattle.rule_binding.specs.Binding.{whole_var};
ghost use Rattle.rule_goals.specs.Said.{own_place, next_free, arg_places};

use rule_binding::whole_variable;
use sqlite_items::Items;
use std::alloc::Global;
use tel_base::Memory;
use tel_term::Expr;

/// The place behind this one. One that is no number of the machine is want of memory.
fn behind(place: u32) -> Result<u32, Memory>
    ensures { IfOk result (λ next. next ≡ suc place) }
{
    match place.checked_add(1) {
        Some(next) => Ok(next),
        None => Err(Memory),
    }
}

/// The first free place behind an argument, where `free` was it before.
pub fn next_free(arg: &Expr, free: u32) -> Result<u32, Memory>
    ensures { IfOk result (λ next. next ≡ next_free free (whole_var arg.now)) }
{
    match whole_variable(arg) {
        Some(_) => Ok(free),
        None => behind(free),
    }
}

/// The place of an argument: its own one for a variable as a whole, and the first free one for another.
fn own_place(arg: &Expr, free: u32) -> u32
    ensures { result ≡ own_place free (whole_var arg.now) }
{
    match whole_variable(arg) {
        Some(var) => var,
        None => free,
    }
}

/// The places of arguments, where `free` is the first free one.
pub fn arg_places(alloc: Global, args: &[Expr], free: u32) -> Result<Items<u32>, Memory>
    ensures { IfOk result (λ places. places ≡ arg_places free args.now) }
{
    let mut places = Items::new(alloc);
    let mut next = free;
    for arg in args {
        places.push(own_place(arg, next))?;
        next = next_free(arg, next)?;
    }
    Ok(places)
}
