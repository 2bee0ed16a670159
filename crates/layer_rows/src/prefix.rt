//! Values, expressions and formulas as the bytes that a row is compared with. An operation stands in
//! brackets, its sign first, and so does a chain, each operand after the first behind its own sign.

use row_tables::Cause;
use tel_rule::{Atom, BinaryOp, ConstOp, Formula, ManyOp, UnaryOp};
use tel_term::{Expr, ProductOp, SumOp, Value};

/// These bytes at the end.
fn put(out: &mut Vec<u8>, bytes: &[u8]) -> Result<(), Cause> {
    out.extend_from_slice(bytes)?;
    Ok(())
}

/// A value, as `Num(-3)` or `Sym(0)`.
pub fn put_value(out: &mut Vec<u8>, value: Value) -> Result<(), Cause> {
    let alloc = *out.allocator();
    let text = match value {
        Value::Num(number) => format!(in alloc; "Num({number})"),
        Value::Sym(number) => format!(in alloc; "Sym({number})"),
    };
    put(out, text?.as_bytes())
}

/// A number behind a word.
fn put_number(out: &mut Vec<u8>, word: &str, number: u32) -> Result<(), Cause> {
    let alloc = *out.allocator();
    let text = format!(in alloc; "{word}{number}");
    put(out, text?.as_bytes())
}

/// The sign of a sum.
fn sum_sign(op: SumOp) -> &'static [u8] {
    match op {
        SumOp::Plus => b" + ",
        SumOp::Minus => b" - ",
    }
}

/// The sign of a product.
fn product_sign(op: ProductOp) -> &'static [u8] {
    match op {
        ProductOp::Times => b" * ",
        ProductOp::Divide => b" / ",
        ProductOp::Remainder => b" \\ ",
    }
}

/// An expression, as `(1 + (V0 * V1))` with the variables by their numbers.
#[cycle(expr)]
pub fn put_expr(out: &mut Vec<u8>, expr: &Expr) -> Result<(), Cause> {
    match expr {
        Expr::Value(value) => put_value(out, *value),
        Expr::Var(number) => put_number(out, "V", *number),
        Expr::Minus(operand) => {
            put(out, b"(-")?;
            put_expr(out, operand.get())?;
            put(out, b")")
        }
        Expr::Sum(first, rest) => {
            put(out, b"(")?;
            put_expr(out, first.get())?;
            put_summands(out, rest.as_slice())?;
            put(out, b")")
        }
        Expr::Product(first, rest) => {
            put(out, b"(")?;
            put_expr(out, first.get())?;
            put_factors(out, rest.as_slice())?;
            put(out, b")")
        }
    }
}

#[cycle(expr)]
fn put_summands(out: &mut Vec<u8>, rest: &[(SumOp, Expr)]) -> Result<(), Cause> {
    for (op, expr) in rest {
        put(out, sum_sign(*op))?;
        put_expr(out, expr)?;
    }
    Ok(())
}

#[cycle(expr)]
fn put_factors(out: &mut Vec<u8>, rest: &[(ProductOp, Expr)]) -> Result<(), Cause> {
    for (op, expr) in rest {
        put(out, product_sign(*op))?;
        put_expr(out, expr)?;
    }
    Ok(())
}

/// A constant.
fn const_sign(op: ConstOp) -> &'static [u8] {
    match op {
        ConstOp::True => b"&true",
        ConstOp::False => b"&false",
        ConstOp::Initial => b"&initial",
        ConstOp::Final => b"&final",
    }
}

/// The sign of an operator with one operand.
fn unary_sign(op: UnaryOp) -> &'static [u8] {
    match op {
        UnaryOp::Not => b"~ ",
        UnaryOp::Previous => b"< ",
        UnaryOp::WeakPrevious => b"<: ",
        UnaryOp::AlwaysBefore => b"<* ",
        UnaryOp::OnceBefore => b"<? ",
        UnaryOp::Initially => b"<< ",
        UnaryOp::Next => b"> ",
        UnaryOp::WeakNext => b">: ",
        UnaryOp::AlwaysAfter => b">* ",
        UnaryOp::OnceAfter => b">? ",
        UnaryOp::Finally => b">> ",
    }
}

/// The sign of an operator with two operands.
fn binary_sign(op: BinaryOp) -> &'static [u8] {
    match op {
        BinaryOp::Since => b" <? ",
        BinaryOp::Trigger => b" <* ",
        BinaryOp::Until => b" >? ",
        BinaryOp::Release => b" >* ",
        BinaryOp::Implies => b" -> ",
        BinaryOp::ImpliedBy => b" <- ",
        BinaryOp::Same => b" <> ",
    }
}

/// The sign of a chain.
fn many_sign(op: ManyOp) -> &'static [u8] {
    match op {
        ManyOp::And => b"&",
        ManyOp::Or => b"|",
    }
}

/// An atom, as `-p'` with its arguments in brackets.
fn put_atom(out: &mut Vec<u8>, atom: &Atom) -> Result<(), Cause> {
    if atom.negative {
        put(out, b"-")?;
    }
    for _ in 0..atom.before {
        put(out, b"'")?;
    }
    put(out, atom.name.as_slice())?;
    for _ in 0..atom.after {
        put(out, b"'")?;
    }
    for arg in atom.args.as_slice() {
        put(out, b"(")?;
        put_expr(out, arg)?;
        put(out, b")")?;
    }
    Ok(())
}

/// A formula, as `(& (~ p) q)`.
#[cycle(formula)]
pub fn put_formula(out: &mut Vec<u8>, formula: &Formula) -> Result<(), Cause> {
    match formula {
        Formula::Const(op) => put(out, const_sign(*op)),
        Formula::Atom(atom) => put_atom(out, atom),
        Formula::Unary(op, operand) => {
            put(out, b"(")?;
            put(out, unary_sign(*op))?;
            put_formula(out, operand.get())?;
            put(out, b")")
        }
        Formula::Binary(op, left, right) => {
            put(out, b"(")?;
            put_formula(out, left.get())?;
            put(out, binary_sign(*op))?;
            put_formula(out, right.get())?;
            put(out, b")")
        }
        Formula::Many(op, operands) => {
            put(out, b"(")?;
            put(out, many_sign(*op))?;
            put_all(out, operands.as_slice())?;
            put(out, b")")
        }
    }
}

#[cycle(formula)]
fn put_all(out: &mut Vec<u8>, operands: &[Formula]) -> Result<(), Cause> {
    for operand in operands {
        put(out, b" ")?;
        put_formula(out, operand)?;
    }
    Ok(())
}
