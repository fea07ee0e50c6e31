/// What a token is: a row of the table of tokens (ISO 13211-1, section 6.4, narrowed), where each
/// solo character has a kind of its own.
#[derive(Clone, Copy, Debug, PartialEq, Eq)]
pub enum TokenKind {
    /// A lower-case ASCII letter, then ASCII letters, digits and `_`.
    Name,
    /// An ASCII capital or `_`, then the same.
    Variable,
    /// Decimal digits, whose value is at most 9223372036854775808.
    Integer,
    /// A longest run of `+ - * / \ ^ < > = ~ : . ? @ # & $`.
    Symbol,
    /// A name in single quotes.
    Quoted,
    /// `!`
    Cut,
    /// `;`
    Semicolon,
    /// `,`
    Comma,
    /// `|`
    Bar,
    /// `(`
    Open,
    /// `)`
    Close,
    /// `[`
    OpenList,
    /// `]`
    CloseList,
    /// The full stop that ends a clause.
    End,
}

/// What a stretch of text is. Stretches lie side by side and leave no byte out.
#[derive(Clone, Copy, Debug)]
pub enum LexemeKind {
    Layout,
    Comment,
    Token(TokenKind),
    /// What can't be a token, to the full stop where the text is taken up again, or to the end of
    /// the text: whether there is such a full stop.
    Bad(bool),
}
