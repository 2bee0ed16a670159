ghost use Rattle.std.specs.Prelude.{◌≡◌, ◌+◌, ◌-◌, ◌^◌, ◌<◌, ◌≤◌, length, true, is_some, Some, None};
ghost use Rattle.std.specs.Option.{option_map, option_and_then};
ghost use Rattle.grammar_laws.specs.Points.{at, begins};
ghost use Rattle.formula_syntax.specs.Points.{words_of};
ghost use Rattle.formula_syntax.specs.Reading as readers;
ghost use Rattle.grammar_laws.specs.Steps.{one, passes};
ghost use Rattle.formula_syntax.specs.Senses as spec;
ghost use Rattle.formula_syntax.specs.Grammar as grammar;
ghost use Rattle.formula_syntax.specs.Given.{said, known_of, point_at, HasRoom, HasRoomForOne, seen, seen_is, starts_flat, skipped, Takes, Reads, found, Onward};

use crate::marks::Mark;
use crate::names::Names;
use crate::senses::{Sense, sense_of};
use std::alloc::{AllocError, Global};
use std::marker::Model;
use tel_base::Memory;
use tel_lex::Token;

/// Why a reading stops.
#[derive(Clone, Copy)]
pub enum Stop {
    /// The next token can't stand here.
    Unexpected,
    /// The next token opens one level too many.
    Deep,
    /// Want of memory.
    Memory,
}

impl From<AllocError> for Stop {
    ghost use Rattle.std.specs.Prelude.{◌≡◌};
    ghost use Rattle.formula_syntax.specs.declared.reading.Stop.TheVariants as stops;

    ghost from_gives = { λ _ stop. stop ≡ stops.Memory };

    fn from(_: AllocError) -> Stop {
        Stop::Memory
    }
}

impl From<Memory> for Stop {
    ghost use Rattle.std.specs.Prelude.{◌≡◌};
    ghost use Rattle.formula_syntax.specs.declared.reading.Stop.TheVariants as stops;

    ghost from_gives = { λ _ stop. stop ≡ stops.Memory };

    fn from(_: Memory) -> Stop {
        Stop::Memory
    }
}

fn is_sign(next: Option<Sense>, mark: Mark) -> bool
    ensures { result ≡ seen_is (grammar.is_sign mark) (option_map said next.entry) }
{
    match next {
        Some(Sense::Sign(found)) => found == mark,
        _ => false,
    }
}

fn is_flat(next: Option<Sense>) -> bool
    ensures { result ≡ seen_is starts_flat (option_map said next.entry) }
{
    matches!(
        next,
        Some(Sense::Name(_) | Sense::Sign(Mark::Ampersand | Mark::Minus | Mark::Prime))
    )
}

/// The tokens that are left, and what was seen before them. The names and strings, and the
/// variables, have numbers for as many as there are tokens left.
#[derive(Drop)]
pub struct Reading<'t, 'b> {
    pub alloc: Global,
    pub tokens: &'t [Token<'b>],
    pub names: Names,
}

impl<'t, 'b> Model for Reading<'t, 'b> {
    ghost use Rattle.formula_syntax.specs.Points.{Point, words_of};
    ghost use Rattle.grammar_laws.specs.Points.{at};
    ghost use Rattle.formula_syntax.specs.Given.{known_of, HasRoom};

    ghost Value = { Point };

    ghost view = { λ reading. at (known_of reading.names) (words_of reading.tokens.now) };

    ghost invariant = { λ reading. HasRoom (at (known_of reading.names) (words_of reading.tokens.now)) };
}

impl<'t, 'b> Reading<'t, 'b> {
    /// A reading that begins at a token. It takes the names over, until it is finished.
    pub fn new(
        alloc: Global,
        tokens: &'t [Token<'b>],
        place: usize,
        names: &mut Names,
    ) -> Reading<'t, 'b>
        requires within { place ≤ length tokens.now }
        requires symbols { length names.old.symbols + (length tokens.now - place) < 2 ^ 32 - 1 }
        requires vars { length names.old.vars + (length tokens.now - place) < 2 ^ 32 - 1 }
        ensures { result ≡ point_at names.old tokens.now place }
    {
        let seen = std::mem::replace(names, Names::new(alloc));
        Reading {
            alloc,
            tokens: &tokens[place..],
            names: seen,
        }
    }

    /// Gives the names back, and the index of the next token among so many.
    pub fn finish(self, names: &mut Names, tokens: usize) -> usize
        requires { length self.words ≤ tokens }
        ensures place { result + length self.entry.words ≡ tokens }
        ensures names { known_of names.new ≡ self.entry.known }
    {
        let Reading {
            tokens: rest,
            names: seen,
            ..
        } = self;
        *names = seen;
        tokens - rest.len()
    }

    /// How many tokens are left.
    pub fn left(&self) -> usize
        ensures { result ≡ length self.now.words }
    {
        self.tokens.len()
    }

    /// What the next token says.
    pub fn peek(&self) -> Option<Sense<'b>>
        ensures { option_map said result ≡ seen self.now.words }
    {
        match self.tokens {
            [token, ..] => Some(sense_of(token)),
            [] => None,
        }
    }

    /// Goes on behind the next token.
    #[tactic(auto, using(crate::proofs::Onwards::onward_skip))]
    pub fn skip(&mut self)
        ensures point { self.new ≡ skipped true self.old }
        ensures onward { Onward self.old self.new }
        ensures room { 0 < length self.old.words → HasRoomForOne self.new }
    {
        if let [_, rest @ ..] = self.tokens {
            self.tokens = rest;
        }
    }

    /// Whether this sign comes next.
    pub fn sees(&self, mark: Mark) -> bool
        ensures { result ≡ begins (passes (grammar.sign mark)) self.now.words }
    {
        is_sign(self.peek(), mark)
    }

    /// Takes this sign, if it comes next.
    pub fn take(&mut self, mark: Mark) -> bool
        ensures taken { Takes (grammar.sign mark) self.old (found result) self.new }
        ensures onward { Onward self.old self.new }
    {
        let found = self.sees(mark);
        if found {
            self.skip();
        }
        found
    }

    /// Takes this sign, which must come next.
    pub fn expect(&mut self, mark: Mark) -> Result<(), Stop>
        ensures reads { Reads (one (grammar.sign mark) self.old) result self.new }
        ensures onward { Onward self.old self.new }
    {
        if self.take(mark) {
            Ok(())
        } else {
            Err(Stop::Unexpected)
        }
    }

    /// Whether the next token opens a level of a value.
    pub fn opens_value(&self) -> bool
        ensures { result ≡ begins readers.opens_value self.now.words }
    {
        self.sees(Mark::Minus) || self.sees(Mark::Open)
    }

    /// Whether a constant or an atom begins with the next token.
    pub fn starts_flat(&self) -> bool
        ensures { result ≡ begins readers.starts_flat self.now.words }
    {
        is_flat(self.peek())
    }
}
