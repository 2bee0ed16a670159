/// The signs of the language, and the words that stand for nothing but themselves.
#[derive(Clone, Copy, PartialEq, Eq)]
pub enum Mark {
    /// `:-`
    If,
    /// `..`
    Dots,
    /// `.`
    Stop,
    /// `,`
    Comma,
    /// `;`
    Semicolon,
    /// `(`
    Open,
    /// `)`
    Close,
    /// `{`
    OpenBrace,
    /// `}`
    CloseBrace,
    /// `'`
    Prime,
    /// `~`
    Tilde,
    /// `&`
    Ampersand,
    /// `|`
    Bar,
    /// `->`
    RightArrow,
    /// `<-`
    LeftArrow,
    /// `<>`
    BothArrow,
    /// `<*`
    LessStar,
    /// `<?`
    LessQuery,
    /// `<:`
    LessColon,
    /// `<<`
    LessLess,
    /// `<=`
    LessEqual,
    /// `<`
    Less,
    /// `>*`
    GreaterStar,
    /// `>?`
    GreaterQuery,
    /// `>:`
    GreaterColon,
    /// `>>`
    GreaterGreater,
    /// `>=`
    GreaterEqual,
    /// `>`
    Greater,
    /// `=`
    Equal,
    /// `!=`
    Unequal,
    /// `+`
    Plus,
    /// `-`
    Minus,
    /// `*`
    Star,
    /// `/`
    Slash,
    /// `\`
    Backslash,
    /// `not`
    Not,
    /// `#program`
    Program,
    /// `#const`
    Const,
    /// `#show`
    Show,
}
