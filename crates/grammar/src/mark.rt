/// A key or a sign of the language, or the end of a text.
#[derive(Clone, Copy, Debug, PartialEq, Eq)]
pub enum Mark {
    Nil,
    New,
    In,
    For,
    Contract,
    Match,
    If,
    Else,
    True,
    False,
    Not,
    And,
    Or,
    Set,
    Bool,
    Int,
    String,
    Uri,
    ByteArray,
    /// `bundle`
    Bundle,
    /// `bundle0`
    BundleNeither,
    /// `bundle+`
    BundleWrite,
    /// `bundle-`
    BundleRead,
    /// `...`
    Ellipsis,
    /// `<<-`
    PeekArrow,
    /// `!!`
    DoubleBang,
    /// `!=`
    Unequal,
    /// `<-`
    Arrow,
    /// `<=`
    LessEqual,
    /// `>=`
    GreaterEqual,
    /// `==`
    Equal,
    /// `=>`
    FatArrow,
    /// `++`
    DoublePlus,
    /// `--`
    DoubleMinus,
    /// `/\`
    Both,
    /// `\/`
    Either,
    /// `|`
    Bar,
    /// `!`
    Bang,
    /// `(`
    Open,
    /// `)`
    Close,
    /// `{`
    OpenBrace,
    /// `}`
    CloseBrace,
    /// `[`
    OpenSquare,
    /// `]`
    CloseSquare,
    /// `,`
    Comma,
    /// `;`
    Semicolon,
    /// `&`
    Ampersand,
    /// `:`
    Colon,
    /// `.`
    Dot,
    /// `@`
    At,
    /// `*`
    Star,
    /// `<`
    Less,
    /// `>`
    Greater,
    /// `=`
    Assign,
    /// `+`
    Plus,
    /// `-`
    Minus,
    /// `/`
    Slash,
    /// `%`
    Percent,
    /// `~`
    Tilde,
    /// `_`
    Underscore,
    /// The end of the text.
    End,
}
