ghost use Rattle.std.specs.Prelude.{◌≡◌, ◌≤◌, length};
ghost use Rattle.rip_lexer.specs.Words.{
  double_punctuators,
  long_punctuators,
  punctuators,
  single_punctuators,
};
ghost use Rattle.rip_lexer.specs.View.{first_count, first_word};

use crate::ascii::{
    AMPERSAND, BAR, CARET, CLOSE_BRACE, CLOSE_BRACKET, CLOSE_PARENTHESIS, COLON, COMMA, EQUALS,
    EXCLAMATION, GREATER, LESS, MINUS, OPEN_BRACE, OPEN_BRACKET, OPEN_PARENTHESIS, PERCENT, PLUS,
    POINT, QUESTION, SEMICOLON, SLASH, STAR, TILDE,
};
use rip_base::{BinaryOperator, LogicalOperator, StepOperator, UnaryOperator};
use rip_grammar::Word;

/// How many units the longest punctuator has that the units begin with (ECMA-262 7.7), and its word; no units where there
/// is none.
pub(crate) fn longest_mark(units: &[u16]) -> (usize, Word)
    ensures count { result.0 ≡ first_count punctuators units.now }
    ensures word { result.1 ≡ first_word punctuators units.now }
    ensures bound { result.0 ≤ length units.now }
{
    let long = long_mark(units);
    if long.0 > 0 {
        return long;
    }
    let double = double_mark(units);
    if double.0 > 0 {
        return double;
    }
    single_mark(units)
}

/// The same of the punctuators of four and three units.
#[tactic(auto, unfolding(crate::specs::Words::long_punctuators))]
fn long_mark(units: &[u16]) -> (usize, Word)
    ensures count { result.0 ≡ first_count long_punctuators units.now }
    ensures word { result.1 ≡ first_word long_punctuators units.now }
    ensures bound { result.0 ≤ length units.now }
{
    match units {
        [GREATER, GREATER, GREATER, EQUALS, ..] => (
            4,
            Word::Compound(BinaryOperator::ShiftRightUnsigned),
        ),
        [EQUALS, EQUALS, EQUALS, ..] => (3, Word::Infix(BinaryOperator::StrictEqual)),
        [EXCLAMATION, EQUALS, EQUALS, ..] => (3, Word::Infix(BinaryOperator::StrictNotEqual)),
        [GREATER, GREATER, GREATER, ..] => (3, Word::Infix(BinaryOperator::ShiftRightUnsigned)),
        [LESS, LESS, EQUALS, ..] => (3, Word::Compound(BinaryOperator::ShiftLeft)),
        [GREATER, GREATER, EQUALS, ..] => (3, Word::Compound(BinaryOperator::ShiftRight)),
        _ => (0, Word::Unused),
    }
}

/// The same of the punctuators of two units.
#[tactic(auto, unfolding(crate::specs::Words::double_punctuators))]
fn double_mark(units: &[u16]) -> (usize, Word)
    ensures count { result.0 ≡ first_count double_punctuators units.now }
    ensures word { result.1 ≡ first_word double_punctuators units.now }
    ensures bound { result.0 ≤ length units.now }
{
    match units {
        [LESS, EQUALS, ..] => (2, Word::Infix(BinaryOperator::LessOrEqual)),
        [GREATER, EQUALS, ..] => (2, Word::Infix(BinaryOperator::GreaterOrEqual)),
        [EQUALS, EQUALS, ..] => (2, Word::Infix(BinaryOperator::Equal)),
        [EXCLAMATION, EQUALS, ..] => (2, Word::Infix(BinaryOperator::NotEqual)),
        [PLUS, PLUS, ..] => (2, Word::Step(StepOperator::Increment)),
        [MINUS, MINUS, ..] => (2, Word::Step(StepOperator::Decrement)),
        [LESS, LESS, ..] => (2, Word::Infix(BinaryOperator::ShiftLeft)),
        [GREATER, GREATER, ..] => (2, Word::Infix(BinaryOperator::ShiftRight)),
        [AMPERSAND, AMPERSAND, ..] => (2, Word::Logical(LogicalOperator::And)),
        [BAR, BAR, ..] => (2, Word::Logical(LogicalOperator::Or)),
        [PLUS, EQUALS, ..] => (2, Word::Compound(BinaryOperator::Add)),
        [MINUS, EQUALS, ..] => (2, Word::Compound(BinaryOperator::Subtract)),
        [STAR, EQUALS, ..] => (2, Word::Compound(BinaryOperator::Multiply)),
        [PERCENT, EQUALS, ..] => (2, Word::Compound(BinaryOperator::Remainder)),
        [SLASH, EQUALS, ..] => (2, Word::Compound(BinaryOperator::Divide)),
        [AMPERSAND, EQUALS, ..] => (2, Word::Compound(BinaryOperator::BitAnd)),
        [BAR, EQUALS, ..] => (2, Word::Compound(BinaryOperator::BitOr)),
        [CARET, EQUALS, ..] => (2, Word::Compound(BinaryOperator::BitXor)),
        _ => (0, Word::Unused),
    }
}

/// The same of the punctuators of one unit.
#[tactic(auto, unfolding(crate::specs::Words::single_punctuators))]
fn single_mark(units: &[u16]) -> (usize, Word)
    ensures count { result.0 ≡ first_count single_punctuators units.now }
    ensures word { result.1 ≡ first_word single_punctuators units.now }
    ensures bound { result.0 ≤ length units.now }
{
    match units {
        [OPEN_BRACE, ..] => (1, Word::OpenBrace),
        [CLOSE_BRACE, ..] => (1, Word::CloseBrace),
        [OPEN_PARENTHESIS, ..] => (1, Word::OpenParenthesis),
        [CLOSE_PARENTHESIS, ..] => (1, Word::CloseParenthesis),
        [OPEN_BRACKET, ..] => (1, Word::OpenBracket),
        [CLOSE_BRACKET, ..] => (1, Word::CloseBracket),
        [POINT, ..] => (1, Word::Point),
        [SEMICOLON, ..] => (1, Word::Semicolon),
        [COMMA, ..] => (1, Word::Comma),
        [LESS, ..] => (1, Word::Infix(BinaryOperator::Less)),
        [GREATER, ..] => (1, Word::Infix(BinaryOperator::Greater)),
        [PLUS, ..] => (1, Word::Infix(BinaryOperator::Add)),
        [MINUS, ..] => (1, Word::Infix(BinaryOperator::Subtract)),
        [STAR, ..] => (1, Word::Infix(BinaryOperator::Multiply)),
        [SLASH, ..] => (1, Word::Infix(BinaryOperator::Divide)),
        [PERCENT, ..] => (1, Word::Infix(BinaryOperator::Remainder)),
        [AMPERSAND, ..] => (1, Word::Infix(BinaryOperator::BitAnd)),
        [BAR, ..] => (1, Word::Infix(BinaryOperator::BitOr)),
        [CARET, ..] => (1, Word::Infix(BinaryOperator::BitXor)),
        [EXCLAMATION, ..] => (1, Word::Prefix(UnaryOperator::Not)),
        [TILDE, ..] => (1, Word::Prefix(UnaryOperator::BitNot)),
        [QUESTION, ..] => (1, Word::Question),
        [COLON, ..] => (1, Word::Colon),
        [EQUALS, ..] => (1, Word::Assign),
        _ => (0, Word::Unused),
    }
}
