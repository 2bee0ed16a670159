ghost use Rattle.std.specs.Prelude.{◌≡◌, IfOk, length};
ghost use Rattle.part_syntax.specs.Grammar as grammar;

use sqlite_items::Items;
use std::alloc::{AllocError, Global};
use tel_rule::{Arg, Atom, Fact, Head};
use tel_term::Expr;

/// The expressions of a tuple without ranges.
fn plain_args(alloc: Global, args: Items<Arg>) -> Result<Option<Items<Expr>>, AllocError>
    ensures { IfOk result (λ read. read ≡ grammar.plain_args args) }
{
    let mut args = args;
    let last = match args.pop() {
        Some(Arg::One(last)) => last,
        Some(Arg::Range(_, _)) => return Ok(None),
        None => return Ok(Some(Items::new(alloc))),
    };
    match plain_args(alloc, args)? {
        Some(front) => {
            let mut front = front;
            front.push(last)?;
            Ok(Some(front))
        }
        None => Ok(None),
    }
}

/// The head that facts are, if they are one atom: one tuple without ranges.
pub fn head_of(alloc: Global, fact: Fact) -> Result<Option<Head>, AllocError>
    ensures { IfOk result (λ head. head ≡ grammar.head_of fact) }
{
    let Fact {
        negative,
        before,
        name,
        after,
        mut tuples,
    } = fact;
    let tuple = match tuples.pop() {
        Some(tuple) => tuple,
        None => return Ok(None),
    };
    if !tuples.is_empty() {
        return Ok(None);
    }
    match plain_args(alloc, tuple)? {
        Some(args) => Ok(Some(Head::Normal(Atom {
            negative,
            before,
            name,
            after,
            args,
        }))),
        None => Ok(None),
    }
}
