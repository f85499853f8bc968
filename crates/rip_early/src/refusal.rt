ghost use Rattle.std.specs.Prelude.{◌≡◌};

use rip_base::NoMemory;
use std::error::Error;
use std::fmt;

/// The kinds of early errors (ECMA-262 14.1 and Annex C, narrowed to the profile), in the order in which those at one
/// place count.
#[derive(Clone, Copy, Debug, PartialEq, Eq)]
pub enum EarlyKind {
    /// The script does not begin with the directive `use strict` (14.1).
    NotStrict,
    /// A parameter's name, or a key of an object literal, stands twice (13.1, 11.1.5).
    Duplicate,
    /// A name is bound or assigned that may not be (12.2.1, 13.1, 11.13.1).
    BadBinding,
    /// A name is deleted (11.4.1).
    BadDelete,
    /// A name means nothing (10.2.2.1).
    UnknownGlobal,
    /// `this` stands outside all functions (10.4.3).
    NoGlobalObject,
    /// A `return`, `break` or `continue` has no target (12.7 to 12.9).
    BadJump,
}

/// Why scripts are refused. It is printed as its kind and its place.
#[derive(Clone, Copy, Debug, PartialEq, Eq)]
pub enum EarlyRefusal {
    /// The first early error: its script, numbered from 1, its place in the script's units, and its kind.
    At {
        script: u32,
        place: u32,
        kind: EarlyKind,
    },
    /// Memory ran out.
    Memory,
}

impl fmt::Display for EarlyKind {
    ghost use Rattle.std.specs.Prelude.{Some};
    ghost use Rattle.rip_early.specs.Printed.{kind_text};

    ghost output = { λ kind. Some (kind_text kind) };

    fn fmt<W: fmt::Write>(&self, f: &mut fmt::Formatter<W>) -> fmt::Result {
        f.write_str(match self {
            EarlyKind::NotStrict => "NotStrict",
            EarlyKind::Duplicate => "Duplicate",
            EarlyKind::BadBinding => "BadBinding",
            EarlyKind::BadDelete => "BadDelete",
            EarlyKind::UnknownGlobal => "UnknownGlobal",
            EarlyKind::NoGlobalObject => "NoGlobalObject",
            EarlyKind::BadJump => "BadJump",
        })
    }
}

impl fmt::Display for EarlyRefusal {
    ghost use Rattle.std.specs.Prelude.{Some};
    ghost use Rattle.rip_early.specs.Printed.{refusal_text};

    ghost output = { λ refusal. Some (refusal_text refusal) };

    fn fmt<W: fmt::Write>(&self, f: &mut fmt::Formatter<W>) -> fmt::Result {
        match self {
            EarlyRefusal::At { place, kind, .. } => write!(f, "{kind} {place}"),
            EarlyRefusal::Memory => f.write_str("memory"),
        }
    }
}

impl Error for EarlyRefusal {}

impl From<NoMemory> for EarlyRefusal {
    ghost use Rattle.rip_early.specs.declared.refusal.EarlyRefusal.TheVariants.{Memory};

    ghost from_gives = { λ _ e. e ≡ Memory };

    fn from(_: NoMemory) -> EarlyRefusal {
        EarlyRefusal::Memory
    }
}
