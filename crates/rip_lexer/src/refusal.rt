ghost use Rattle.std.specs.Prelude.{◌≡◌};

use std::alloc::AllocFailed;
use std::error::Error;
use std::fmt;

/// Why a script has no list of tokens. Of several causes at one place the first in this order is told.
#[derive(Clone, Copy, Debug, PartialEq, Eq, PartialOrd, Ord, Hash)]
pub enum LexKind {
    /// A unit that begins no token, or a part of a name directly behind a numeral.
    BadCharacter,
    /// A line end or the end of the script in a text.
    OpenText,
    /// A `/*` with no `*/` behind it.
    OpenComment,
    /// A number with a point or an exponent.
    FractionLiteral,
    /// A `0` before a digit, or `\` before an octal digit.
    OctalLiteral,
    /// A number above 2^53 - 1.
    LiteralTooLarge,
    /// `\8`, `\9`, or `\x` or `\u` without their hexadecimal digits.
    BadEscape,
}

/// Why a script was not read: the first construct that is refused, or want of memory.
#[derive(Clone, Copy, Debug, PartialEq, Eq, Hash)]
pub enum LexRefusal {
    /// The place counts units of the script's text from 0. It is that of the first unit of a numeral, a text or a
    /// comment, that of the `\` of an escape, and that of the bad unit itself.
    At { place: u32, kind: LexKind },
    Memory,
}

/// What is wrong with a construct, and how many units behind its first one.
#[derive(Clone, Copy, Debug, PartialEq, Eq)]
pub(crate) struct Fault {
    pub offset: usize,
    pub kind: LexKind,
}

impl fmt::Display for LexKind {
    ghost use Rattle.std.specs.Prelude.{Some};
    ghost use Rattle.rip_lexer.specs.Printed.{kind_text};

    ghost output = { λ kind. Some (kind_text kind) };

    fn fmt<W: fmt::Write>(&self, f: &mut fmt::Formatter<W>) -> fmt::Result {
        f.write_str(match self {
            LexKind::BadCharacter => "BadCharacter",
            LexKind::OpenText => "OpenText",
            LexKind::OpenComment => "OpenComment",
            LexKind::FractionLiteral => "FractionLiteral",
            LexKind::OctalLiteral => "OctalLiteral",
            LexKind::LiteralTooLarge => "LiteralTooLarge",
            LexKind::BadEscape => "BadEscape",
        })
    }
}

impl fmt::Display for LexRefusal {
    ghost use Rattle.std.specs.Prelude.{Some};
    ghost use Rattle.rip_lexer.specs.Printed.{refusal_text};

    ghost output = { λ refusal. Some (refusal_text refusal) };

    fn fmt<W: fmt::Write>(&self, f: &mut fmt::Formatter<W>) -> fmt::Result {
        match self {
            LexRefusal::At { place, kind } => write!(f, "{kind} {place}"),
            LexRefusal::Memory => f.write_str("memory"),
        }
    }
}

impl Error for LexRefusal {}

impl<T: Drop> From<AllocFailed<T>> for LexRefusal {
    ghost use Rattle.rip_lexer.specs.declared.refusal.LexRefusal.TheVariants.{Memory};

    ghost from_gives = { λ _ e. e ≡ Memory };

    fn from(_: AllocFailed<T>) -> LexRefusal {
        LexRefusal::Memory
    }
}
