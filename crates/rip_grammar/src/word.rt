use rip_base::{BinaryOperator, LogicalOperator, StepOperator, UnaryOperator};

/// What a token is to the grammar.
#[derive(Clone, Copy, Debug, PartialEq, Eq)]
pub enum Word {
    /// A name that is no reserved word.
    Name,
    Numeral,
    Text,
    /// The end of the script, which stands behind its last token.
    End,

    Null,
    True,
    False,
    This,
    Function,
    New,
    Var,
    If,
    Else,
    Do,
    While,
    For,
    Continue,
    Break,
    Return,
    Switch,
    Case,
    Default,
    Throw,
    Try,
    Catch,
    Finally,
    /// A reserved word that no rule has.
    Unused,

    OpenBrace,
    CloseBrace,
    OpenParenthesis,
    CloseParenthesis,
    OpenBracket,
    CloseBracket,
    Point,
    Semicolon,
    Comma,
    Question,
    Colon,
    /// `=`.
    Assign,

    /// An operator between two operands; `+` and `-` may stand before one as well.
    Infix(BinaryOperator),
    /// `&&` and `||`.
    Logical(LogicalOperator),
    /// `+=` and its like.
    Compound(BinaryOperator),
    /// `++` and `--`.
    Step(StepOperator),
    /// An operator before one operand; never `+` or `-`.
    Prefix(UnaryOperator),
}

/// A token with its word. Places and counts are in units of the script, from 0.
#[derive(Clone, Copy, Debug, PartialEq, Eq)]
pub struct Lexeme {
    pub word: Word,
    /// The place of its first unit.
    pub start: u32,
    /// How many units it has.
    pub count: u32,
    /// Whether a line end stands between it and the token before it.
    pub line_before: bool,
}
