//! What a queue no longer holds. It exists in proofs alone.
ghost use Rattle.std.specs.Prelude.{◌≡◌, List, ℕ, ◌+◌, [], ◌∷◌, ◌++◌};
ghost use Rattle.std.specs.Borrow.{ftrue};
ghost use Rattle.rip_calls.specs.Calls.{MadeCall};

use std::marker::Model;

/// All calls that were made, and how many of them were taken. It takes no room, and its calls do nothing when they run.
#[derive(Drop)]
pub(crate) struct Past {
    pub ghost made: { List MadeCall },
    pub ghost taken: { ℕ },
}

impl Model for Past {
    ghost also_owns = { λ _. ftrue };
}

/// A call with its callback.
#[derive(Clone, Copy, Drop)]
pub(crate) struct Call<'a> {
    pub(crate) text: &'a [u8],
    pub(crate) callback: Option<u32>,
}

impl Past {
    pub(crate) fn new() -> Past
        ensures { result ≡ record { made = []; taken = 0 } }
    {
        Past {}
    }

    /// One more call was made.
    #[inline(always)]
    pub(crate) fn with(&self, _call: &Call<'_>) -> Past
        ensures { result ≡ record self.now {
          made = self.now.made ++ record { text = _call.now.text.now; callback = _call.now.callback } ∷ [];
        } }
    {
        Past {}
    }

    /// One more call was taken.
    #[inline(always)]
    pub(crate) fn without_first(&self) -> Past
        ensures { result ≡ record self.now { taken = self.now.taken + 1 } }
    {
        Past {}
    }
}
