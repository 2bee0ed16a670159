ghost use Rattle.std.specs.Prelude.{◌≡◌};
ghost use Rattle.std.specs.Option.{option_map, option_and_then};
ghost use Rattle.std.specs.Str.{bytes_eq};
ghost use Rattle.grammar_laws.specs.Points.{begins};
ghost use Rattle.formula_syntax.specs.Grammar as grammar;
ghost use Rattle.formula_syntax.specs.Reading as readers;
ghost use Rattle.formula_syntax.specs.Given.{said, Takes, Onward, view_text};

use crate::marks::Mark;
use crate::reading::Reading;
use crate::senses::Sense;
use tel_rule::{BinaryOp, ConstOp, UnaryOp};
use tel_term::{ProductOp, SumOp};

fn product_op_of(next: Option<Sense>) -> Option<ProductOp>
    ensures { result ≡ option_and_then grammar.product_op_of (option_map said next.entry) }
{
    match next {
        Some(Sense::Sign(Mark::Star)) => Some(ProductOp::Times),
        Some(Sense::Sign(Mark::Slash)) => Some(ProductOp::Divide),
        Some(Sense::Sign(Mark::Backslash)) => Some(ProductOp::Remainder),
        _ => None,
    }
}

fn sum_op_of(next: Option<Sense>) -> Option<SumOp>
    ensures { result ≡ option_and_then grammar.sum_op_of (option_map said next.entry) }
{
    match next {
        Some(Sense::Sign(Mark::Plus)) => Some(SumOp::Plus),
        Some(Sense::Sign(Mark::Minus)) => Some(SumOp::Minus),
        _ => None,
    }
}

fn prefix_of(next: Option<Sense>) -> Option<UnaryOp>
    ensures { result ≡ option_and_then grammar.prefix_of (option_map said next.entry) }
{
    match next {
        Some(Sense::Sign(Mark::Tilde)) => Some(UnaryOp::Not),
        Some(Sense::Sign(Mark::Less)) => Some(UnaryOp::Previous),
        Some(Sense::Sign(Mark::LessColon)) => Some(UnaryOp::WeakPrevious),
        Some(Sense::Sign(Mark::LessStar)) => Some(UnaryOp::AlwaysBefore),
        Some(Sense::Sign(Mark::LessQuery)) => Some(UnaryOp::OnceBefore),
        Some(Sense::Sign(Mark::LessLess)) => Some(UnaryOp::Initially),
        Some(Sense::Sign(Mark::Greater)) => Some(UnaryOp::Next),
        Some(Sense::Sign(Mark::GreaterColon)) => Some(UnaryOp::WeakNext),
        Some(Sense::Sign(Mark::GreaterStar)) => Some(UnaryOp::AlwaysAfter),
        Some(Sense::Sign(Mark::GreaterQuery)) => Some(UnaryOp::OnceAfter),
        Some(Sense::Sign(Mark::GreaterGreater)) => Some(UnaryOp::Finally),
        _ => None,
    }
}

fn pair_op_of(next: Option<Sense>) -> Option<BinaryOp>
    ensures { result ≡ option_and_then grammar.pair_op_of (option_map said next.entry) }
{
    match next {
        Some(Sense::Sign(Mark::LessQuery)) => Some(BinaryOp::Since),
        Some(Sense::Sign(Mark::LessStar)) => Some(BinaryOp::Trigger),
        Some(Sense::Sign(Mark::GreaterQuery)) => Some(BinaryOp::Until),
        Some(Sense::Sign(Mark::GreaterStar)) => Some(BinaryOp::Release),
        _ => None,
    }
}

fn arrow_op_of(next: Option<Sense>) -> Option<BinaryOp>
    ensures { result ≡ option_and_then grammar.arrow_op_of (option_map said next.entry) }
{
    match next {
        Some(Sense::Sign(Mark::RightArrow)) => Some(BinaryOp::Implies),
        Some(Sense::Sign(Mark::LeftArrow)) => Some(BinaryOp::ImpliedBy),
        Some(Sense::Sign(Mark::BothArrow)) => Some(BinaryOp::Same),
        _ => None,
    }
}

fn const_named(name: &[u8]) -> Option<ConstOp>
    ensures { result ≡ grammar.const_named name.now }
{
    if name == b"true".as_slice() {
        Some(ConstOp::True)
    } else if name == b"false".as_slice() {
        Some(ConstOp::False)
    } else if name == b"initial".as_slice() {
        Some(ConstOp::Initial)
    } else if name == b"final".as_slice() {
        Some(ConstOp::Final)
    } else {
        None
    }
}

fn const_of(next: Option<Sense>) -> Option<ConstOp>
    ensures { result ≡ option_and_then grammar.const_of (option_map said next.entry) }
{
    match next {
        Some(Sense::Name(name)) => const_named(name),
        _ => None,
    }
}

fn name_of<'b>(next: Option<Sense<'b>>) -> Option<&'b [u8]>
    ensures { option_map view_text result ≡ option_and_then grammar.name_of (option_map said next.entry) }
{
    match next {
        Some(Sense::Name(name)) => Some(name),
        _ => None,
    }
}

impl<'t, 'b> Reading<'t, 'b> {
    /// Takes an operator of `*`, `/` and `\\`, if it comes next.
    pub fn product_op(&mut self) -> Option<ProductOp>
        ensures taken { Takes grammar.product_op self.old result self.new }
        ensures onward { Onward self.old self.new }
    {
        let op = product_op_of(self.peek());
        if op.is_some() {
            self.skip();
        }
        op
    }

    /// Takes an operator of `+` and `-`, if it comes next.
    pub fn sum_op(&mut self) -> Option<SumOp>
        ensures taken { Takes grammar.sum_op self.old result self.new }
        ensures onward { Onward self.old self.new }
    {
        let op = sum_op_of(self.peek());
        if op.is_some() {
            self.skip();
        }
        op
    }

    /// Takes an operator before a formula, if it comes next.
    pub fn prefix_op(&mut self) -> Option<UnaryOp>
        ensures taken { Takes grammar.prefix_op self.old result self.new }
        ensures onward { Onward self.old self.new }
    {
        let op = prefix_of(self.peek());
        if op.is_some() {
            self.skip();
        }
        op
    }

    /// Takes an operator between unary formulas, if it comes next.
    pub fn pair_op(&mut self) -> Option<BinaryOp>
        ensures taken { Takes grammar.pair_op self.old result self.new }
        ensures onward { Onward self.old self.new }
    {
        let op = pair_op_of(self.peek());
        if op.is_some() {
            self.skip();
        }
        op
    }

    /// Takes an operator between disjunctions, if it comes next.
    pub fn arrow_op(&mut self) -> Option<BinaryOp>
        ensures taken { Takes grammar.arrow_op self.old result self.new }
        ensures onward { Onward self.old self.new }
    {
        let op = arrow_op_of(self.peek());
        if op.is_some() {
            self.skip();
        }
        op
    }

    /// Takes the name of a constant, if it comes next.
    pub fn const_op(&mut self) -> Option<ConstOp>
        ensures taken { Takes grammar.const_op self.old result self.new }
        ensures onward { Onward self.old self.new }
    {
        let op = const_of(self.peek());
        if op.is_some() {
            self.skip();
        }
        op
    }

    /// Takes a name, if it comes next.
    pub fn name(&mut self) -> Option<&'b [u8]>
        ensures taken { Takes grammar.name self.old (option_map view_text result) self.new }
        ensures onward { Onward self.old self.new }
    {
        let name = name_of(self.peek());
        if name.is_some() {
            self.skip();
        }
        name
    }

    /// Whether the next token opens a level of a unary formula.
    pub fn opens_unary(&self) -> bool
        ensures { result ≡ begins readers.opens_unary self.now.words }
    {
        prefix_of(self.peek()).is_some() || self.sees(Mark::Open)
    }
}
