ghost use Rattle.std.specs.Prelude.{◌≡◌, ◌++◌, Ok, Err};
ghost use Rattle.grammar_laws.specs.Steps.{Got, made, one, both, maybe, at_most, passes};
ghost use Rattle.formula_syntax.specs.Grammar as grammar;
ghost use Rattle.formula_syntax.specs.Reading as readers;
ghost use Rattle.formula_syntax.specs.Given.{Reads, ReadsSign, Onward, found, sign_of, args_read};

use crate::marks::Mark;
use crate::reading::{Reading, Stop};
use sqlite_items::Items;
use tel_base::Text;
use tel_rule::Atom;
use tel_term::Expr;

/// The most arguments of an atom behind the first one.
const FURTHER_ARGUMENTS: usize = 7;

/// An atom without its arguments.
#[derive(Clone, Copy)]
pub struct Signed<'b> {
    pub negative: bool,
    pub before: bool,
    pub name: &'b [u8],
    pub after: bool,
}

/// How many primes there are.
pub fn primes(prime: bool) -> u32
    ensures { result ≡ grammar.count (found prime) }
{
    if prime { 1 } else { 0 }
}

#[tactic(auto, using(crate::proofs::Onwards::onward_then))]
impl<'t, 'b> Reading<'t, 'b> {
    /// An atom without its arguments.
    pub fn sign(&mut self) -> Result<Signed<'b>, Stop>
        ensures reads { ReadsSign (readers.read_sign self.old) result self.new }
        ensures onward { Onward self.old self.new }
    {
        let negative = self.take(Mark::Minus);
        let before = self.take(Mark::Prime);
        match self.name() {
            Some(name) => {
                let after = self.take(Mark::Prime);
                Ok(Signed {
                    negative,
                    before,
                    name,
                    after,
                })
            }
            None => Err(Stop::Unexpected),
        }
    }

    /// At most so many arguments behind these, each behind a comma.
    fn further_args(
        &mut self,
        levels: u32,
        most: usize,
        mut args: Items<Expr>,
    ) -> Result<Items<Expr>, Stop>
        ensures reads { Reads (made (λ more. args ++ grammar.behind_all more)
            (at_most most (passes (grammar.sign Mark.Comma)) (both (one (grammar.sign Mark.Comma)) (readers.read_expr levels))) self.old) result self.new }
        ensures onward { Onward self.old self.new }
    {
        for _turn in 0..most {
            if !self.take(Mark::Comma) {
                return Ok(args);
            }
            let arg = self.expr(levels)?;
            args.push(arg)?;
        }
        Ok(args)
    }

    /// The arguments of an atom, if there are any.
    fn args(&mut self, levels: u32, most: usize) -> Result<Items<Expr>, Stop>
        ensures reads { Reads (made grammar.args_or_none (maybe (passes (grammar.sign Mark.Open)) (args_read most (readers.read_expr levels))) self.old) result self.new }
        ensures onward { Onward self.old self.new }
    {
        let mut args = Items::new(self.alloc);
        if !self.take(Mark::Open) {
            return Ok(args);
        }
        let first = self.expr(levels)?;
        args.push(first)?;
        let all = self.further_args(levels, most, args)?;
        self.expect(Mark::Close)?;
        Ok(all)
    }

    /// An atom, in whose arguments at most so many levels may be opened.
    pub fn atom(&mut self, levels: u32) -> Result<Atom, Stop>
        ensures reads { Reads (readers.read_atom levels self.old) result self.new }
        ensures onward { Onward self.old self.new }
    {
        let sign = self.sign()?;
        let args = self.args(levels, FURTHER_ARGUMENTS)?;
        Ok(Atom {
            negative: sign.negative,
            before: primes(sign.before),
            name: Text::from_slice(self.alloc, sign.name)?,
            after: primes(sign.after),
            args,
        })
    }
}
