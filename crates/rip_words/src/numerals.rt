//! Decimal numerals.
//!
//! | what | its definition |
//! |---|---|
//! | [`read_number`] | std's `decimal`, the numeral of a number: digits without leading zeros |
//!
//! A layer above may rest on this: a word is read exactly where it is the numeral of a number below 2^64, and no two
//! numbers have one numeral.

ghost use Rattle.std.specs.Prelude.{◌≡◌, ◌≢◌, ◌<◌, ◌^◌, ℕ, decimal, IsTrue, IsNone, IfSome};
ghost use Rattle.std.specs.Char.{is_ascii_digit};
ghost use Rattle.std.specs.List.{list_all};

use std::str;

/// The number below 2^64 whose numeral, without leading zeros, the word is.
#[tactic(auto, using(crate::proofs::NumeralsLemmas::not_digits))]
pub fn read_number(word: &[u8]) -> Option<u64>
    ensures some { IfSome result (λ n. word.now ≡ decimal n) }
    ensures none { IsNone result → (n : ℕ) → n < 2 ^ 64 → word.now ≢ decimal n }
{
    if are_digits(word) {
        value_of(word)
    } else {
        None
    }
}

fn are_digits(word: &[u8]) -> bool
    ensures { result ≡ list_all is_ascii_digit word.now }
{
    word.iter().all(|byte| byte.is_ascii_digit())
}

/// The number that these digits are the numeral of.
fn value_of(digits: &[u8]) -> Option<u64>
    requires { IsTrue (list_all is_ascii_digit digits.now) }
    ensures value { IfSome result (λ n. digits.now ≡ decimal n) }
    ensures none { IsNone result → (n : ℕ) → n < 2 ^ 64 → digits.now ≢ decimal n }
{
    if digits.len() > 1 && digits[0] == b'0' {
        return None;
    }
    str::from_utf8(digits).ok()?.parse().ok()
}
