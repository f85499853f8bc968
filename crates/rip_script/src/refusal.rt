ghost use Rattle.std.specs.Prelude.{◌≡◌, IfOk, string_bytes};
ghost use Rattle.rip_script.specs.Given.{refusal_line};

use rip_early::EarlyKind;
use rip_lexer::LexKind;
use rip_parser::ParseKind;
use std::alloc::{AllocError, Global};

/// Why a script is refused.
#[derive(Clone, Copy, Debug, PartialEq, Eq)]
pub enum Refusal {
    /// The file is longer than a file may be.
    TooLong,
    /// The bytes are no text.
    NotUtf8,
    /// A construct of the script is no token. Places count units of the script from 0.
    Lex { place: u32, kind: LexKind },
    /// The tokens have no tree.
    Parse { place: u32, kind: ParseKind },
    /// The script has an early error.
    Early { place: u32, kind: EarlyKind },
}

/// Why reading a script stopped.
#[derive(Clone, Copy, Debug, PartialEq, Eq)]
pub enum Stop {
    Refused(Refusal),
    /// Want of memory.
    Memory,
}

impl Refusal {
    /// The line that says so.
    pub fn line(self, alloc: Global) -> Result<String, AllocError>
        ensures { IfOk result (λ line. string_bytes line ≡ refusal_line self) }
    {
        match self {
            Refusal::TooLong => String::from_str(alloc, "refused TooLong 0\n"),
            Refusal::NotUtf8 => String::from_str(alloc, "refused NotUtf8 0\n"),
            Refusal::Lex { place, kind } => format!(in alloc; "refused {kind} {place}\n"),
            Refusal::Parse { place, kind } => format!(in alloc; "refused {kind} {place}\n"),
            Refusal::Early { place, kind } => format!(in alloc; "refused {kind} {place}\n"),
        }
    }
}
