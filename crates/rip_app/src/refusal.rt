ghost use Rattle.std.specs.Prelude.{◌≡◌};
ghost use Rattle.rip_app.specs.Script.{of_manifest, of_mistake, of_page, of_tokens, of_tree};

use rip_base::{NoMemory, PageKind};
use rip_early::{EarlyKind, EarlyRefusal};
use rip_html::PageRefusal;
use rip_lexer::{LexKind, LexRefusal};
use rip_manifest::{ManifestKind, ManifestRefusal};
use rip_parser::{ParseKind, ParseRefusal};
use std::alloc::AllocFailed;

/// Why a page and a manifest are no application. Scripts are numbered from 1. A place of a page counts its bytes, and that
/// of a script the units of its text, both from 0.
#[derive(Clone, Copy, Debug, PartialEq, Eq)]
pub enum AppRefusal {
    /// The page is refused.
    Page {
        place: u32,
        kind: PageKind,
    },
    /// A script has no tokens.
    Lex {
        script: u32,
        place: u32,
        kind: LexKind,
    },
    /// A script has no tree.
    Parse {
        script: u32,
        place: u32,
        kind: ParseKind,
    },
    /// A script has an early error.
    Early {
        script: u32,
        place: u32,
        kind: EarlyKind,
    },
    /// The manifest is refused.
    Manifest(ManifestKind),
    /// The limits of the manifest are too large for all sessions together.
    LimitsTooLarge,
    /// Want of memory.
    Memory,
}

impl From<NoMemory> for AppRefusal {
    ghost use Rattle.rip_app.specs.declared.refusal.AppRefusal.TheVariants.{Memory};

    ghost from_gives = { λ _ r. r ≡ Memory };

    fn from(_: NoMemory) -> AppRefusal {
        AppRefusal::Memory
    }
}

impl<T: Drop> From<AllocFailed<T>> for AppRefusal {
    ghost use Rattle.rip_app.specs.declared.refusal.AppRefusal.TheVariants.{Memory};

    ghost from_gives = { λ _ r. r ≡ Memory };

    fn from(_: AllocFailed<T>) -> AppRefusal {
        AppRefusal::Memory
    }
}

impl AppRefusal {
    /// The refusal of the page.
    pub(crate) fn of_page(refusal: PageRefusal) -> AppRefusal
        ensures { result ≡ of_page refusal }
    {
        match refusal {
            PageRefusal::At { place, kind } => AppRefusal::Page { place, kind },
            PageRefusal::Memory => AppRefusal::Memory,
        }
    }

    /// The refusal of the tokens of a script.
    pub(crate) fn of_tokens(script: u32, refusal: LexRefusal) -> AppRefusal
        ensures { result ≡ of_tokens script refusal }
    {
        match refusal {
            LexRefusal::At { place, kind } => AppRefusal::Lex {
                script,
                place,
                kind,
            },
            LexRefusal::Memory => AppRefusal::Memory,
        }
    }

    /// The refusal of the tree of a script.
    pub(crate) fn of_tree(script: u32, refusal: ParseRefusal) -> AppRefusal
        ensures { result ≡ of_tree script refusal }
    {
        match refusal {
            ParseRefusal::At { place, kind } => AppRefusal::Parse {
                script,
                place,
                kind,
            },
            ParseRefusal::Memory => AppRefusal::Memory,
        }
    }

    /// The refusal of scripts with an early error.
    pub(crate) fn of_mistake(refusal: EarlyRefusal) -> AppRefusal
        ensures { result ≡ of_mistake refusal }
    {
        match refusal {
            EarlyRefusal::At {
                script,
                place,
                kind,
            } => AppRefusal::Early {
                script,
                place,
                kind,
            },
            EarlyRefusal::Memory => AppRefusal::Memory,
        }
    }

    /// The refusal of the manifest.
    pub(crate) fn of_manifest(refusal: ManifestRefusal) -> AppRefusal
        ensures { result ≡ of_manifest refusal }
    {
        match refusal {
            ManifestRefusal::Kind(kind) => AppRefusal::Manifest(kind),
            ManifestRefusal::LimitsTooLarge => AppRefusal::LimitsTooLarge,
            ManifestRefusal::Memory => AppRefusal::Memory,
        }
    }
}
