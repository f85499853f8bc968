//! The literals of a script: numerals and texts, with their values.

ghost use Rattle.std.specs.Prelude.{◌≡◌, ◌++◌, ◌∷◌, [], ◌≤◌, ◌↔◌, ℕ, IsTrue, IsSome, IfOk, IfErr, IfSome, List, All, OnErr, take, drop, length, pos, Some};
ghost use Rattle.std.specs.Str.{bytes_eq};
ghost use Rattle.rip_lexer.specs.Numeral.{numeral_value};
ghost use Rattle.rip_lexer.specs.Tokens.{IsTokenOf};
ghost use Rattle.rip_tree.specs.Making.{with_units};
ghost use Rattle.rip_parser.specs.Building.{IsPut};
ghost use Rattle.rip_parser.specs.Listed.{AreInOrder, IsListed, IsTextToken, GrowsBy};
ghost use Rattle.rip_parser.specs.Shows.{IsText, spelling_of};

use crate::error::BuildError;
use rip_base::Whole;
use rip_grammar::Lexeme;
use rip_lexer::{Token, TokenKind, numeral_value, text_value};
use rip_tree::{TextLiteral, TreeMaker};

/// The units of a lexeme of a script. Of a lexeme past the end they are those that are there.
fn spelling_of(script: &[u16], lexeme: Lexeme) -> &[u16]
    ensures { result.now ≡ spelling_of script.now lexeme }
{
    let start = (lexeme.start as usize).min(script.len());
    let (_, behind) = script.split_at(start);
    let count = (lexeme.count as usize).min(behind.len());
    let (units, _) = behind.split_at(count);
    units
}

/// The value of a numeral (ECMA-262 7.8.3). What is too large for a numeral is none.
pub(crate) fn numeral_of(script: &[u16], lexeme: Lexeme) -> Result<Whole, BuildError>
    ensures value { IfOk result
        (λ whole. whole ≡ pos (numeral_value (spelling_of script.now lexeme))) }
    ensures refused { IfErr result
        (λ _. numeral_value (spelling_of script.now lexeme) ≤ 9007199254740991 → ⊥) }
{
    match numeral_value(spelling_of(script, lexeme)) {
        Some(value) => Ok(value),
        None => Err(BuildError::NoPhrase),
    }
}

/// Whether the lexeme is a token of a text.
fn is_text_token(tokens: &[Token], lexeme: Lexeme) -> bool
    ensures found { IsTrue result → IsListed tokens.now lexeme }
    ensures all { AreInOrder tokens.now → IsListed tokens.now lexeme → IsTrue result }
{
    let index = tokens.partition_point(|token| token.start < lexeme.start);
    index < tokens.len() && is_text(tokens[index], lexeme)
}

/// Whether the token is a text, and that lexeme.
fn is_text(token: Token, lexeme: Lexeme) -> bool
    ensures { IsTrue result ↔ IsTextToken lexeme token }
{
    matches!(token.kind, TokenKind::Text)
        && token.start == lexeme.start
        && token.count == lexeme.count
}

/// Whether the spelling is these units between two like quotes.
fn is_plain(spelling: &[u16], units: &[u16]) -> bool
    ensures { IsTrue result ↔ ((quote : ℕ) × (spelling.now ≡ quote ∷ (units.now ++ quote ∷ []))) }
{
    match spelling {
        [quote, behind @ ..] => is_closed(behind, units, *quote),
        [] => false,
    }
}

/// Whether the units that are left are these and then the quote.
fn is_closed(left: &[u16], units: &[u16], quote: u16) -> bool
    ensures { result ≡ bytes_eq left.now (units.now ++ quote ∷ []) }
{
    let mut rest = left;
    for unit in units {
        match rest {
            [first, behind @ ..] if *first == *unit => rest = behind,
            _ => return false,
        }
    }
    matches!(rest, [last] if *last == quote)
}

/// A text, its value put behind the units of the tree (ECMA-262 7.8.4).
pub(crate) fn literal_of(
    maker: &mut TreeMaker,
    value: &mut Vec<u16>,
    script: &[u16],
    tokens: &[Token],
    lexeme: Lexeme,
) -> Result<TextLiteral, BuildError>
    requires { All (IsTokenOf script.now) tokens.now }
    ensures text { IfOk result
        (λ literal. (more : List ℕ)
        → IsText (maker.new.units ++ more) (spelling_of script.now lexeme) literal) }
    ensures grown { GrowsBy maker.old maker.new }
    ensures put { IfOk result (λ literal. IsPut (Some literal) maker.old.units maker.new.units) }
    ensures refused { IfErr result
        (λ e. e ≡ BuildError.NoPhrase → AreInOrder tokens.now → IsListed tokens.now lexeme → ⊥) }
{
    if !is_text_token(tokens, lexeme) {
        return Err(BuildError::NoPhrase);
    }
    let spelling = spelling_of(script, lexeme);
    value.clear();
    text_value(value, spelling)?;
    let units = value.as_slice();
    let piece = maker.add_units(units)?;
    Ok(TextLiteral {
        value: piece,
        is_plain: is_plain(spelling, units),
    })
}
