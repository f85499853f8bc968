ghost use Rattle.std.specs.Prelude.{◌≡◌, ℕ, ℤ, pos, negsuc, ◌≤ℤ◌, ◌↔◌, IsSome, IfSome};
ghost use Rattle.rip_base.specs.Whole.{IsWhole};

use std::marker::Model;

/// The greatest whole number, 2^53 - 1; the least is its negative.
pub const MAX_WHOLE: i64 = 9_007_199_254_740_991;

/// A whole number of absolute value at most [`MAX_WHOLE`]: a number of the script language other than NaN.
#[derive(Clone, Copy, Debug, PartialEq, Eq, PartialOrd, Ord, Hash)]
pub struct Whole {
    number: i64,
}

impl Model for Whole {
    ghost use Rattle.std.specs.Prelude.{ℤ};
    ghost use Rattle.rip_base.specs.Whole.{IsWhole};

    ghost Value = { ℤ };

    ghost view = { λ w. w.number };

    ghost invariant = { λ w. IsWhole w.number };

    ghost inverse = { λ z. record { number = z } };
}

impl From<u32> for Whole {
    ghost use Rattle.std.specs.Prelude.{◌≡◌, pos};

    ghost from_gives = { λ n whole. whole ≡ pos n };

    fn from(n: u32) -> Whole {
        Whole {
            number: i64::from(n),
        }
    }
}

impl Whole {
    /// The whole number `n`, or none where it is out of range.
    pub fn new(n: i64) -> Option<Whole>
        ensures some { IsSome result ↔ IsWhole n }
        ensures value { IfSome result (λ w. w ≡ n) }
    {
        if -MAX_WHOLE <= n && n <= MAX_WHOLE {
            Some(Whole { number: n })
        } else {
            None
        }
    }

    pub fn get(self) -> i64
        ensures value { result ≡ self }
        ensures whole { IsWhole self }
    {
        self.number
    }
}
