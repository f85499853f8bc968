ghost use Rattle.std.specs.Prelude.{◌≡◌};

use rip_base::NoMemory;
use std::alloc::{AllocError, AllocFailed};
use std::{error, fmt};
use thiserror::Error;

/// Why bytes are no manifest, in the order of the judgement: the first that holds is answered.
#[derive(Clone, Copy, Debug, PartialEq, Eq)]
pub enum ManifestKind {
    /// The bytes are no JSON text.
    Syntax,
    /// The value is no object with exactly the members `version`, `functions` and `limits`, or exactly these and
    /// `language` and `wire`.
    Member,
    /// The version is not 1 of three members, or not 2 of five; or the language or the wire is none that is served.
    Version,
    /// The functions are no object of at most 256 members `NAME:[OP,PREFIX]`.
    Function,
    /// The limits are no object of named limits, each a whole number from 1 to its greatest.
    LimitRange,
}

impl fmt::Display for ManifestKind {
    ghost use Rattle.std.specs.Prelude.{Some};
    ghost use Rattle.rip_manifest.specs.Printed.{kind_text};

    ghost output = { λ kind. Some (kind_text kind) };

    fn fmt<W: fmt::Write>(&self, f: &mut fmt::Formatter<W>) -> fmt::Result {
        f.write_str(match self {
            ManifestKind::Syntax => "Syntax",
            ManifestKind::Member => "Member",
            ManifestKind::Version => "Version",
            ManifestKind::Function => "Function",
            ManifestKind::LimitRange => "LimitRange",
        })
    }
}

impl error::Error for ManifestKind {}

/// Why no manifest was read.
#[derive(Clone, Copy, Debug, PartialEq, Eq, Error)]
pub enum ManifestRefusal {
    #[error("{0}")]
    Kind(ManifestKind),
    /// The sessions together may take more than 4,294,967,296 bytes.
    #[error("LimitsTooLarge")]
    LimitsTooLarge,
    #[error("memory")]
    Memory,
}

impl From<ManifestKind> for ManifestRefusal {
    ghost use Rattle.rip_manifest.specs.declared.refusal.ManifestRefusal.TheVariants.{Kind};

    ghost from_gives = { λ kind refusal. refusal ≡ Kind kind };

    fn from(kind: ManifestKind) -> ManifestRefusal {
        ManifestRefusal::Kind(kind)
    }
}

impl From<NoMemory> for ManifestRefusal {
    ghost use Rattle.rip_manifest.specs.declared.refusal.ManifestRefusal.TheVariants.{Memory};

    ghost from_gives = { λ _ refusal. refusal ≡ Memory };

    fn from(_: NoMemory) -> ManifestRefusal {
        ManifestRefusal::Memory
    }
}

impl From<AllocError> for ManifestRefusal {
    ghost use Rattle.rip_manifest.specs.declared.refusal.ManifestRefusal.TheVariants.{Memory};

    ghost from_gives = { λ _ refusal. refusal ≡ Memory };

    fn from(_: AllocError) -> ManifestRefusal {
        ManifestRefusal::Memory
    }
}

impl<T: Drop> From<AllocFailed<T>> for ManifestRefusal {
    ghost use Rattle.rip_manifest.specs.declared.refusal.ManifestRefusal.TheVariants.{Memory};

    ghost from_gives = { λ _ refusal. refusal ≡ Memory };

    fn from(_: AllocFailed<T>) -> ManifestRefusal {
        ManifestRefusal::Memory
    }
}
