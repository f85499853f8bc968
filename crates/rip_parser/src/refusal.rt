ghost use Rattle.std.specs.Prelude.{◌≡◌};

use rip_base::NoMemory;
use std::alloc::AllocError;
use std::error::Error;
use std::fmt;

/// Why a script has no tree.
#[derive(Clone, Copy, Debug, PartialEq, Eq)]
pub enum ParseKind {
    /// No script goes on with this lexeme.
    Unexpected,
    /// The tree is deeper than 200 levels.
    TooNested,
}

/// Why a script is refused, by the place in its units, or that memory ran out.
#[derive(Clone, Copy, Debug, PartialEq, Eq)]
pub enum ParseRefusal {
    At { place: u32, kind: ParseKind },
    Memory,
}

impl fmt::Display for ParseKind {
    ghost use Rattle.std.specs.Prelude.{Some};
    ghost use Rattle.rip_parser.specs.Printed.{kind_text};

    ghost output = { λ kind. Some (kind_text kind) };

    fn fmt<W: fmt::Write>(&self, f: &mut fmt::Formatter<W>) -> fmt::Result {
        match self {
            ParseKind::Unexpected => f.write_str("Unexpected"),
            ParseKind::TooNested => f.write_str("TooNested"),
        }
    }
}

impl fmt::Display for ParseRefusal {
    ghost use Rattle.std.specs.Prelude.{Some};
    ghost use Rattle.rip_parser.specs.Printed.{refusal_text};

    ghost output = { λ refusal. Some (refusal_text refusal) };

    fn fmt<W: fmt::Write>(&self, f: &mut fmt::Formatter<W>) -> fmt::Result {
        match self {
            ParseRefusal::At { place, kind } => write!(f, "{kind} {place}"),
            ParseRefusal::Memory => f.write_str("memory"),
        }
    }
}

impl Error for ParseRefusal {}

impl From<NoMemory> for ParseRefusal {
    ghost use Rattle.rip_parser.specs.declared.refusal.ParseRefusal.TheVariants.{Memory};

    ghost from_gives = { λ _ e. e ≡ Memory };

    fn from(_: NoMemory) -> ParseRefusal {
        ParseRefusal::Memory
    }
}

impl From<AllocError> for ParseRefusal {
    ghost use Rattle.rip_parser.specs.declared.refusal.ParseRefusal.TheVariants.{Memory};

    ghost from_gives = { λ _ e. e ≡ Memory };

    fn from(_: AllocError) -> ParseRefusal {
        ParseRefusal::Memory
    }
}
