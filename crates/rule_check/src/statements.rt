//! Arrows and primes of statements.
ghost use Rattle.std.specs.Prelude.{◌≡◌};
ghost use Rattle.std.specs.List.{list_any};
ghost use Rattle.rule_check.specs.Causes.{item_has_arrow, literal_has_arrow, rule_has_arrow, has_bare_arrow, item_has_bad_prime, literal_has_bad_prime, head_has_bad_prime, has_bad_prime};

use crate::formulas::{has_arrow, has_prime, leads, trails};
use tel_rule::{Head, Kind, LitItem, Literal};

fn item_has_arrow(item: &LitItem) -> bool
    ensures { result ≡ item_has_arrow item.now }
{
    match item {
        LitItem::Atom(_) => false,
        LitItem::Tel(formula) => has_arrow(formula),
        LitItem::Compare(_, _, _) => false,
    }
}

fn literal_has_arrow(literal: &Literal) -> bool
    ensures { result ≡ literal_has_arrow literal.now }
{
    literal.nots == 0 && item_has_arrow(&literal.item)
}

fn body_has_arrow(body: &[Literal]) -> bool
    ensures { result ≡ list_any literal_has_arrow body.now }
{
    body.iter().any(literal_has_arrow)
}

fn rule_has_arrow(head: &Head, body: &[Literal]) -> bool
    ensures { result ≡ rule_has_arrow head.now body.now }
{
    match head {
        Head::Normal(_) => body_has_arrow(body),
        Head::Choice(_) => body_has_arrow(body),
        Head::None => false,
    }
}

/// Whether a statement has a head, and an arrow in a `&tel` literal without `not`, with no `~` above it.
pub fn has_bare_arrow(kind: &Kind) -> bool
    ensures { result ≡ has_bare_arrow kind.now }
{
    match kind {
        Kind::Rule(head, body) => rule_has_arrow(head, body.as_slice()),
        Kind::Facts(_) => false,
        Kind::Const(_, _) => false,
        Kind::Show(_) => false,
    }
}

fn item_has_bad_prime(item: &LitItem) -> bool
    ensures { result ≡ item_has_bad_prime item.now }
{
    match item {
        LitItem::Atom(atom) => trails(atom),
        LitItem::Tel(formula) => has_prime(formula),
        LitItem::Compare(_, _, _) => false,
    }
}

fn literal_has_bad_prime(literal: &Literal) -> bool
    ensures { result ≡ literal_has_bad_prime literal.now }
{
    item_has_bad_prime(&literal.item)
}

fn body_has_bad_prime(body: &[Literal]) -> bool
    ensures { result ≡ list_any literal_has_bad_prime body.now }
{
    body.iter().any(literal_has_bad_prime)
}

fn head_has_bad_prime(head: &Head) -> bool
    ensures { result ≡ head_has_bad_prime head.now }
{
    match head {
        Head::Normal(atom) => leads(atom),
        Head::Choice(atom) => leads(atom),
        Head::None => false,
    }
}

/// Whether an atom of a body has a trailing prime, a head a leading one, or an atom inside `&tel` any.
pub fn has_bad_prime(kind: &Kind) -> bool
    ensures { result ≡ has_bad_prime kind.now }
{
    match kind {
        Kind::Rule(head, body) => {
            head_has_bad_prime(head) || body_has_bad_prime(body.as_slice())
        }
        Kind::Facts(fact) => fact.before != 0,
        Kind::Const(_, _) => false,
        Kind::Show(_) => false,
    }
}
