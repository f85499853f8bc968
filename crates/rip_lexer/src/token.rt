use rip_base::List;
use rip_grammar::Word;

/// The kinds of token of a script.
#[derive(Clone, Copy, Debug, PartialEq, Eq, Hash)]
pub enum TokenKind {
    /// A name that is no reserved word.
    Name,
    /// A reserved word, the literals `null`, `true` and `false` among them.
    Reserved,
    Numeral,
    /// A text with its quotes.
    Text,
    Punctuator,
}

/// A token of a script. Places and counts are in units of the script's text, from 0.
#[derive(Clone, Copy, Debug, PartialEq, Eq)]
pub struct Token {
    pub kind: TokenKind,
    /// What it is to the grammar.
    pub word: Word,
    /// The place of its first unit.
    pub start: u32,
    /// How many units it has.
    pub count: u32,
    /// Whether a line end, or a comment that holds one, stands between it and the token before it.
    pub line_before: bool,
}

/// The tokens of a script, in its order.
pub type Tokens = List<Token>;
