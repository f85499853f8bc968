ghost use Rattle.std.specs.Prelude.{◌≡◌, ◌⊎◌, ◌++◌, List};
ghost use Rattle.rip_early.specs.Least.{IsLeast};
ghost use Rattle.rip_early.specs.Mistakes.{order_of, IsNoLater};
ghost use Rattle.rip_early.specs.declared.mistake.Mistake.{Mistake};

use crate::refusal::EarlyKind;

/// An early error: its place in the script's units, and its kind.
#[derive(Clone, Copy, Debug, PartialEq, Eq)]
pub(crate) struct Mistake {
    pub place: u32,
    pub kind: EarlyKind,
}

/// The early error that counts first in two lists, by that of each list, if it has one.
pub(crate) fn earlier(first: Option<Mistake>, second: Option<Mistake>) -> Option<Mistake>
    ensures { (a b : List Mistake) → IsLeast a first → IsLeast b second → IsLeast (a ++ b) result }
{
    match first {
        None => second,
        Some(one) => match second {
            None => first,
            Some(other) => Some(first_of(one, other)),
        },
    }
}

/// Of two early errors the one that counts first.
fn first_of(one: Mistake, other: Mistake) -> Mistake
    ensures either { (result ≡ one) ⊎ (result ≡ other) }
    ensures before_one { IsNoLater result one }
    ensures before_other { IsNoLater result other }
{
    if other.place < one.place {
        return other;
    }
    if other.place == one.place && rank(other.kind) < rank(one.kind) {
        return other;
    }
    one
}

/// The place of a kind in the order in which those at one place count.
fn rank(kind: EarlyKind) -> u8
    ensures { result ≡ order_of kind }
{
    kind as u8
}
