use tel_base::Text;

/// A ground term: a number, a name or a string, by its bytes.
#[derive(Drop, PartialEq, Eq, Hash)]
pub enum Term {
    Num(i32),
    Name(Text),
    Str(Text),
}

/// What stands for a term: a number for itself, and a symbol for a name or a string, by its number in
/// the table of symbols.
#[derive(Clone, Copy, PartialEq, Eq, Hash)]
pub enum Value {
    Num(i32),
    Sym(u32),
}
