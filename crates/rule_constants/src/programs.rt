//! A program with its constants replaced.
ghost use Rattle.std.specs.Prelude.{◌≡◌, map, IfOk};
ghost use Rattle.rule_constants.specs.Constants.{replacement, expr_replaced};
ghost use Rattle.rule_constants.specs.Operands.{by_number};
ghost use Rattle.rule_constants.specs.Replaced.{atom_replaced, formula_replaced, item_replaced, literal_replaced, head_replaced, arg_replaced, fact_replaced, kind_replaced, statement_replaced};

use crate::exprs::replaced;
use sqlite_items::{Boxed, Items};
use std::alloc::Global;
use tel_base::{Memory, Text};
use tel_rule::{Arg, Atom, Fact, Formula, Head, Kind, LitItem, Literal, Signature, Statement};
use tel_term::{Expr, Value};

fn copied(alloc: Global, text: &Text) -> Result<Text, Memory>
    ensures { IfOk result (λ copy. copy ≡ text.now) }
{
    Text::from_slice(alloc, text.as_slice())
}

fn exprs(
    alloc: Global,
    links: &[Option<usize>],
    known: &[Option<Value>],
    exprs: &[Expr],
) -> Result<Items<Expr>, Memory>
    ensures { IfOk result (λ new. new ≡ map (expr_replaced (replacement links.now (by_number known.now))) exprs.now) }
{
    let mut new = Items::new(alloc);
    for expr in exprs {
        new.push(replaced(alloc, links, known, expr)?)?;
    }
    Ok(new)
}

fn atom(
    alloc: Global,
    links: &[Option<usize>],
    known: &[Option<Value>],
    atom: &Atom,
) -> Result<Atom, Memory>
    ensures { IfOk result (λ new. new ≡ atom_replaced (replacement links.now (by_number known.now)) atom.now) }
{
    let name = copied(alloc, &atom.name)?;
    let args = exprs(alloc, links, known, atom.args.as_slice())?;
    Ok(Atom {
        negative: atom.negative,
        before: atom.before,
        name,
        after: atom.after,
        args,
    })
}

#[cycle(formulas)]
fn formula(
    alloc: Global,
    links: &[Option<usize>],
    known: &[Option<Value>],
    whole: &Formula,
) -> Result<Formula, Memory>
    ensures { IfOk result (λ new. new ≡ formula_replaced (replacement links.now (by_number known.now)) whole.now) }
{
    match whole {
        Formula::Const(op) => Ok(Formula::Const(*op)),
        Formula::Atom(below) => Ok(Formula::Atom(atom(alloc, links, known, below)?)),
        Formula::Unary(op, operand) => {
            let operand = formula(alloc, links, known, operand.get())?;
            Ok(Formula::Unary(*op, Boxed::new(alloc, operand)?))
        }
        Formula::Binary(op, left, right) => {
            let left = formula(alloc, links, known, left.get())?;
            let right = formula(alloc, links, known, right.get())?;
            Ok(Formula::Binary(*op, Boxed::new(alloc, left)?, Boxed::new(alloc, right)?))
        }
        Formula::Many(op, operands) => {
            let operands = formulas(alloc, links, known, operands.as_slice())?;
            Ok(Formula::Many(*op, operands))
        }
    }
}

#[cycle(formulas)]
fn formulas(
    alloc: Global,
    links: &[Option<usize>],
    known: &[Option<Value>],
    formulas: &[Formula],
) -> Result<Items<Formula>, Memory>
    ensures { IfOk result (λ new. new ≡ map (formula_replaced (replacement links.now (by_number known.now))) formulas.now) }
{
    let mut new = Items::new(alloc);
    for operand in formulas {
        new.push(formula(alloc, links, known, operand)?)?;
    }
    Ok(new)
}

fn literal(
    alloc: Global,
    links: &[Option<usize>],
    known: &[Option<Value>],
    literal: &Literal,
) -> Result<Literal, Memory>
    ensures { IfOk result (λ new. new ≡ literal_replaced (replacement links.now (by_number known.now)) literal.now) }
{
    let item = match &literal.item {
        LitItem::Atom(said) => LitItem::Atom(atom(alloc, links, known, said)?),
        LitItem::Tel(said) => LitItem::Tel(formula(alloc, links, known, said)?),
        LitItem::Compare(relation, left, right) => {
            let left = replaced(alloc, links, known, left)?;
            let right = replaced(alloc, links, known, right)?;
            LitItem::Compare(*relation, left, right)
        }
    };
    Ok(Literal {
        nots: literal.nots,
        item,
    })
}

fn body(
    alloc: Global,
    links: &[Option<usize>],
    known: &[Option<Value>],
    literals: &[Literal],
) -> Result<Items<Literal>, Memory>
    ensures { IfOk result (λ new. new ≡ map (literal_replaced (replacement links.now (by_number known.now))) literals.now) }
{
    let mut new = Items::new(alloc);
    for next in literals {
        new.push(literal(alloc, links, known, next)?)?;
    }
    Ok(new)
}

fn head(
    alloc: Global,
    links: &[Option<usize>],
    known: &[Option<Value>],
    head: &Head,
) -> Result<Head, Memory>
    ensures { IfOk result (λ new. new ≡ head_replaced (replacement links.now (by_number known.now)) head.now) }
{
    match head {
        Head::Normal(derived) => Ok(Head::Normal(atom(alloc, links, known, derived)?)),
        Head::Choice(derived) => Ok(Head::Choice(atom(alloc, links, known, derived)?)),
        Head::None => Ok(Head::None),
    }
}

fn arg(
    alloc: Global,
    links: &[Option<usize>],
    known: &[Option<Value>],
    arg: &Arg,
) -> Result<Arg, Memory>
    ensures { IfOk result (λ new. new ≡ arg_replaced (replacement links.now (by_number known.now)) arg.now) }
{
    match arg {
        Arg::One(expr) => Ok(Arg::One(replaced(alloc, links, known, expr)?)),
        Arg::Range(low, high) => {
            let low = replaced(alloc, links, known, low)?;
            Ok(Arg::Range(low, replaced(alloc, links, known, high)?))
        }
    }
}

fn tuple(
    alloc: Global,
    links: &[Option<usize>],
    known: &[Option<Value>],
    tuple: &[Arg],
) -> Result<Items<Arg>, Memory>
    ensures { IfOk result (λ new. new ≡ map (arg_replaced (replacement links.now (by_number known.now))) tuple.now) }
{
    let mut new = Items::new(alloc);
    for next in tuple {
        new.push(arg(alloc, links, known, next)?)?;
    }
    Ok(new)
}

fn tuples(
    alloc: Global,
    links: &[Option<usize>],
    known: &[Option<Value>],
    tuples: &[Items<Arg>],
) -> Result<Items<Items<Arg>>, Memory>
    ensures { IfOk result (λ new. new ≡ map (map (arg_replaced (replacement links.now (by_number known.now)))) tuples.now) }
{
    let mut new = Items::new(alloc);
    for next in tuples {
        new.push(tuple(alloc, links, known, next.as_slice())?)?;
    }
    Ok(new)
}

fn fact(
    alloc: Global,
    links: &[Option<usize>],
    known: &[Option<Value>],
    fact: &Fact,
) -> Result<Fact, Memory>
    ensures { IfOk result (λ new. new ≡ fact_replaced (replacement links.now (by_number known.now)) fact.now) }
{
    let name = copied(alloc, &fact.name)?;
    let tuples = tuples(alloc, links, known, fact.tuples.as_slice())?;
    Ok(Fact {
        negative: fact.negative,
        before: fact.before,
        name,
        after: fact.after,
        tuples,
    })
}

fn shown(alloc: Global, shown: &Option<Signature>) -> Result<Option<Signature>, Memory>
    ensures { IfOk result (λ copy. copy ≡ shown.now) }
{
    match shown {
        Some(signature) => {
            let name = copied(alloc, &signature.name)?;
            Ok(Some(Signature {
                negative: signature.negative,
                name,
                arity: signature.arity,
            }))
        }
        None => Ok(None),
    }
}

fn kind(
    alloc: Global,
    links: &[Option<usize>],
    known: &[Option<Value>],
    kind: &Kind,
) -> Result<Kind, Memory>
    ensures { IfOk result (λ new. new ≡ kind_replaced (replacement links.now (by_number known.now)) kind.now) }
{
    match kind {
        Kind::Rule(derived, literals) => {
            let derived = head(alloc, links, known, derived)?;
            Ok(Kind::Rule(derived, body(alloc, links, known, literals.as_slice())?))
        }
        Kind::Facts(stated) => Ok(Kind::Facts(fact(alloc, links, known, stated)?)),
        Kind::Const(name, expr) => {
            let name = copied(alloc, name)?;
            Ok(Kind::Const(name, replaced(alloc, links, known, expr)?))
        }
        Kind::Show(named) => Ok(Kind::Show(shown(alloc, named)?)),
    }
}

fn vars(alloc: Global, names: &[Text]) -> Result<Items<Text>, Memory>
    ensures { IfOk result (λ new. new ≡ names.now) }
{
    let mut new = Items::new(alloc);
    for name in names {
        new.push(copied(alloc, name)?)?;
    }
    Ok(new)
}

fn statement(
    alloc: Global,
    links: &[Option<usize>],
    known: &[Option<Value>],
    statement: &Statement,
) -> Result<Statement, Memory>
    ensures { IfOk result (λ new. new ≡ statement_replaced (replacement links.now (by_number known.now)) statement.now) }
{
    let vars = vars(alloc, statement.vars.as_slice())?;
    let kind = kind(alloc, links, known, &statement.kind)?;
    Ok(Statement {
        place: statement.place,
        part: statement.part,
        vars,
        kind,
    })
}

/// The statements with what stands in place of the values in their expressions.
pub fn statements(
    alloc: Global,
    links: &[Option<usize>],
    known: &[Option<Value>],
    statements: &[Statement],
) -> Result<Items<Statement>, Memory>
    ensures { IfOk result (λ new. new ≡ map (statement_replaced (replacement links.now (by_number known.now))) statements.now) }
{
    let mut new = Items::new(alloc);
    for next in statements {
        new.push(statement(alloc, links, known, next)?)?;
    }
    Ok(new)
}
