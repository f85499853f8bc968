ghost use Rattle.std.specs.Prelude.{◌≡◌};
ghost use Rattle.std.specs.Str.{bytes_eq};
ghost use Rattle.rip_early.specs.Mistakes.{is_global};
ghost use Rattle.rip_early.specs.Scopes.{global_meaning};

use crate::meaning::Meaning;
use rip_tree::Resolved;
use rip_values::Global;

/// A global, or nothing.
pub(crate) fn global_meaning(name: &[u16]) -> Meaning
    ensures { result ≡ global_meaning name.now }
{
    Meaning {
        resolved: match Global::named(name) {
            Some(global) => Some(Resolved::Global(global)),
            None => None,
        },
        is_own: false,
    }
}

/// Whether the name is that of a global.
pub(crate) fn is_global(name: &[u16]) -> bool
    ensures { result ≡ is_global name.now }
{
    Global::named(name).is_some()
}

/// Whether the name is this ASCII text.
pub(crate) fn is_spelled(text: &str, name: &[u16]) -> bool
    ensures { result ≡ bytes_eq text.now name.now }
{
    let mut bytes = text.as_bytes();
    let mut units = name;
    while let [byte, more @ ..] = bytes {
        match units {
            [unit, rest @ ..] if u16::from(*byte) == *unit => {
                bytes = more;
                units = rest;
            }
            _ => return false,
        }
    }
    units.is_empty()
}
