ghost use Rattle.std.specs.Prelude.{◌≡◌, ◌≤◌, None, IsTrue, IfSome, bytes_eq, codes, length};
ghost use Rattle.rip_base.specs.Units.{begins};
ghost use Rattle.rip_grammar.specs.Words.{is_name};
ghost use Rattle.rip_lexer.specs.Fault.{fault};
ghost use Rattle.rip_lexer.specs.Gap.{begins_comment};
ghost use Rattle.rip_lexer.specs.Units.{is_digit, is_mark, is_name_start, is_quote};
ghost use Rattle.rip_lexer.specs.Tokens.{punctuator_fault};
ghost use Rattle.rip_lexer.specs.View.{first_part, IsConstruct, OffsetWithin};

use crate::ascii::{POINT, SLASH, STAR};
use crate::numeral::{numeral_count, numeral_fault};
use crate::punctuator::longest_mark;
use crate::refusal::{Fault, LexKind};
use crate::text::text_end;
use crate::token::TokenKind;
use crate::units::{UnitClass, begins_with_digit, class_of, name_unit_count};
use crate::words::name_word;
use rip_grammar::Word;

/// What stands behind a gap.
#[derive(Clone, Copy, Debug, PartialEq, Eq)]
pub(crate) enum Construct {
    /// The end of the script.
    Nothing,
    /// A token of so many units.
    Token {
        kind: TokenKind,
        word: Word,
        count: usize,
    },
    /// What is refused.
    Refused(Fault),
}

/// What the units begin with, where no gap begins.
pub(crate) fn first_construct(units: &[u16]) -> Construct
    requires { first_part units.now ≡ None }
    ensures construct { IsConstruct units.now result }
    ensures bound { OffsetWithin (length units.now) result }
{
    let [first, ..] = units else {
        return Construct::Nothing;
    };
    match class_of(*first) {
        UnitClass::NameStart => word(units),
        UnitClass::Digit => numeral(units),
        UnitClass::Quote => text(units),
        UnitClass::Mark => punctuator(units),
        UnitClass::White | UnitClass::LineEnd | UnitClass::Other => refused(LexKind::BadCharacter),
    }
}

/// A construct that is refused at its first unit.
fn refused(kind: LexKind) -> Construct
    ensures { result ≡ Construct.Refused (fault 0 kind) }
{
    Construct::Refused(Fault { offset: 0, kind })
}

/// The name or reserved word that the units begin with.
fn word(units: &[u16]) -> Construct
    requires { IsTrue (begins is_name_start units.now) }
    ensures construct { IsConstruct units.now result }
    ensures bound { OffsetWithin (length units.now) result }
{
    let (spelling, _) = units.split_at(name_unit_count(units));
    let word = name_word(spelling);
    let kind = if is_name(word) {
        TokenKind::Name
    } else {
        TokenKind::Reserved
    };
    Construct::Token {
        kind,
        word,
        count: spelling.len(),
    }
}

/// Whether the word is that of a name.
fn is_name(word: Word) -> bool
    ensures { result ≡ is_name word }
{
    matches!(word, Word::Name)
}

/// The numeral that the units begin with.
fn numeral(units: &[u16]) -> Construct
    requires { IsTrue (begins is_digit units.now) }
    ensures construct { IsConstruct units.now result }
    ensures bound { OffsetWithin (length units.now) result }
{
    let (spelling, rest) = units.split_at(numeral_count(units));
    match numeral_fault(spelling, rest) {
        Some(fault) => Construct::Refused(fault),
        None => Construct::Token {
            kind: TokenKind::Numeral,
            word: Word::Numeral,
            count: spelling.len(),
        },
    }
}

/// The text that the units begin with.
fn text(units: &[u16]) -> Construct
    requires { IsTrue (begins is_quote units.now) }
    ensures construct { IsConstruct units.now result }
    ensures bound { OffsetWithin (length units.now) result }
{
    let end = text_end(units);
    match end.fault {
        Some(fault) => Construct::Refused(fault),
        None => Construct::Token {
            kind: TokenKind::Text,
            word: Word::Text,
            count: end.count,
        },
    }
}

/// The punctuator that the units begin with.
fn punctuator(units: &[u16]) -> Construct
    requires mark { IsTrue (begins is_mark units.now) }
    requires no_gap { first_part units.now ≡ None }
    ensures construct { IsConstruct units.now result }
    ensures bound { OffsetWithin (length units.now) result }
{
    if begins_comment(units) {
        return refused(LexKind::OpenComment);
    }
    let (count, word) = longest_mark(units);
    let (spelling, rest) = units.split_at(count);
    match punctuator_fault(spelling, rest) {
        Some(fault) => Construct::Refused(fault),
        None => Construct::Token {
            kind: TokenKind::Punctuator,
            word,
            count: spelling.len(),
        },
    }
}

/// What is wrong with a punctuator that this rest follows: a `.` before a digit begins a fraction.
fn punctuator_fault(spelling: &[u16], rest: &[u16]) -> Option<Fault>
    ensures value { result ≡ punctuator_fault spelling.now rest.now }
    ensures bound { IfSome result (λ found. found.offset ≤ length spelling.now) }
{
    if is_point(spelling) && begins_with_digit(rest) {
        Some(Fault {
            offset: 0,
            kind: LexKind::FractionLiteral,
        })
    } else {
        None
    }
}

/// Whether a comment begins here.
fn begins_comment(units: &[u16]) -> bool
    ensures { result ≡ begins_comment units.now }
{
    matches!(units, [SLASH, SLASH | STAR, ..])
}

/// Whether the units are a `.`.
fn is_point(units: &[u16]) -> bool
    ensures { result ≡ bytes_eq units.now (codes ".") }
{
    matches!(units, [POINT])
}
