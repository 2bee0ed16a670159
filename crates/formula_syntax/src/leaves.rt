ghost use Rattle.std.specs.Prelude.{◌≡◌, ◌<◌, length};
ghost use Rattle.grammar_laws.specs.Points.{at};
ghost use Rattle.grammar_laws.specs.Steps.{one, maybe, passes};
ghost use Rattle.formula_syntax.specs.Grammar as grammar;
ghost use Rattle.formula_syntax.specs.Given.{Reads, Onward, Makes};

use crate::literals::{number_of, string_of};
use crate::reading::{Reading, Stop};
use crate::senses::Sense;
use tel_base::Text;
use tel_term::{Expr, Term, Value};

impl<'t, 'b> Reading<'t, 'b> {
    /// Takes a token that is a name or a string.
    fn term(&mut self, term: Term) -> Result<Expr, Stop>
        requires { 0 < length self.old.words }
        ensures made { Makes (grammar.known_term term) self.old result self.new }
        ensures onward { Onward self.old self.new }
    {
        self.skip();
        let value = self.names.symbols.value(term)?;
        Ok(Expr::Value(value))
    }

    /// Takes a token that is a variable.
    fn var(&mut self, name: &[u8]) -> Result<Expr, Stop>
        requires { 0 < length self.old.words }
        ensures made { Makes (grammar.known_var name.now) self.old result self.new }
        ensures onward { Onward self.old self.new }
    {
        self.skip();
        let place = self.names.vars.place(self.alloc, name)?;
        Ok(Expr::Var(place as u32))
    }

    /// Takes a `_`.
    fn blank(&mut self) -> Result<Expr, Stop>
        requires { 0 < length self.old.words }
        ensures made { Makes grammar.new_var self.old result self.new }
        ensures onward { Onward self.old self.new }
    {
        self.skip();
        let place = self.names.vars.blank(self.alloc)?;
        Ok(Expr::Var(place as u32))
    }

    /// Takes a token that is an expression by itself, if it comes next.
    pub fn leaf(&mut self) -> Result<Option<Expr>, Stop>
        ensures reads { Reads (maybe (passes grammar.leaf) (one grammar.leaf) self.old) result self.new }
        ensures onward { Onward self.old self.new }
    {
        match self.peek() {
            Some(Sense::Number(text)) => match number_of(text) {
                Some(value) => {
                    self.skip();
                    Ok(Some(Expr::Value(Value::Num(value))))
                }
                None => Ok(None),
            },
            Some(Sense::Name(text)) => {
                let name = Text::from_slice(self.alloc, text)?;
                let expr = self.term(Term::Name(name))?;
                Ok(Some(expr))
            }
            Some(Sense::Str(text)) => match string_of(self.alloc, text)? {
                Some(bytes) => {
                    let expr = self.term(Term::Str(bytes))?;
                    Ok(Some(expr))
                }
                None => Ok(None),
            },
            Some(Sense::Variable(name)) => {
                let expr = self.var(name)?;
                Ok(Some(expr))
            }
            Some(Sense::Blank) => {
                let expr = self.blank()?;
                Ok(Some(expr))
            }
            _ => Ok(None),
        }
    }
}
