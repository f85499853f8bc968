ghost use Rattle.std.specs.Prelude.{◌≡◌, ◌<◌, ◌-ℤ◌, pos, negsuc};
ghost use Rattle.rip_base.specs.Whole.{IsWhole};
ghost use Rattle.rip_heap.specs.Conversions.{ranged};
ghost use Rattle.rip_ops.specs.Arithmetic.{product, sum, difference, quotient, IsQuotient, remainder, count_of, shifted_left, shifted_right, shifted_right_unsigned, bits_and, bits_xor, bits_or, negative, bits_not};

use rip_base::{Fault, Numeral, Whole};
use rip_heap::{to_int32, to_uint32};

/// `*` of numbers (ECMA-262 11.5.1).
pub fn product(a: Numeral, b: Numeral) -> Result<Numeral, Fault>
    ensures { result ≡ product a b }
{
    match a {
        Numeral::Num(x) => match b {
            Numeral::Num(y) => match x.get().checked_mul(y.get()) {
                Some(number) => ranged(number),
                None => Err(Fault::OutOfRange),
            },
            Numeral::NaN => Ok(Numeral::NaN),
        },
        Numeral::NaN => Ok(Numeral::NaN),
    }
}

/// `+` of numbers (ECMA-262 11.6.1).
pub fn sum(a: Numeral, b: Numeral) -> Result<Numeral, Fault>
    ensures { result ≡ sum a b }
{
    match a {
        Numeral::Num(x) => match b {
            Numeral::Num(y) => ranged(x.get() + y.get()),
            Numeral::NaN => Ok(Numeral::NaN),
        },
        Numeral::NaN => Ok(Numeral::NaN),
    }
}

/// `-` (ECMA-262 11.6.2).
pub fn difference(a: Numeral, b: Numeral) -> Result<Numeral, Fault>
    ensures { result ≡ difference a b }
{
    match a {
        Numeral::Num(x) => match b {
            Numeral::Num(y) => ranged(x.get() - y.get()),
            Numeral::NaN => Ok(Numeral::NaN),
        },
        Numeral::NaN => Ok(Numeral::NaN),
    }
}

/// `/` (ECMA-262 11.5.2).
pub fn quotient(a: Numeral, b: Numeral) -> Result<Numeral, Fault>
    ensures value { result ≡ quotient a b }
    ensures law { IsQuotient a b result }
{
    divided(a, b)
}

fn divided(a: Numeral, b: Numeral) -> Result<Numeral, Fault>
    ensures { result ≡ quotient a b }
{
    match a {
        Numeral::Num(x) => match b {
            Numeral::Num(y) => quotient_of(x.get(), y.get()),
            Numeral::NaN => Ok(Numeral::NaN),
        },
        Numeral::NaN => Ok(Numeral::NaN),
    }
}

fn quotient_of(x: i64, y: i64) -> Result<Numeral, Fault>
    requires dividend { IsWhole x }
    requires divisor { IsWhole y }
    ensures { result ≡ quotient (Numeral.Num x) (Numeral.Num y) }
{
    if y == 0 {
        if x == 0 {
            Ok(Numeral::NaN)
        } else {
            Err(Fault::Infinite)
        }
    } else if x % y == 0 {
        Ok(numeral(x / y))
    } else {
        Err(Fault::NotWhole)
    }
}

/// `%` (ECMA-262 11.5.3).
pub fn remainder(a: Numeral, b: Numeral) -> Result<Numeral, Fault>
    ensures { result ≡ remainder a b }
{
    match a {
        Numeral::Num(x) => match b {
            Numeral::Num(y) => Ok(remainder_of(x.get(), y.get())),
            Numeral::NaN => Ok(Numeral::NaN),
        },
        Numeral::NaN => Ok(Numeral::NaN),
    }
}

fn remainder_of(x: i64, y: i64) -> Numeral
    requires dividend { IsWhole x }
    requires divisor { IsWhole y }
    ensures { remainder (Numeral.Num x) (Numeral.Num y) ≡ Ok result }
{
    if y == 0 { Numeral::NaN } else { numeral(x % y) }
}

/// `<<` (ECMA-262 11.7.1).
pub fn shifted_left(a: Numeral, b: Numeral) -> Numeral
    ensures { shifted_left a b ≡ Ok result }
{
    numeral(i64::from((to_uint32(a) << count_of(b)).cast_signed()))
}

/// `>>` (ECMA-262 11.7.2).
pub fn shifted_right(a: Numeral, b: Numeral) -> Numeral
    ensures { shifted_right a b ≡ Ok result }
{
    numeral(i64::from(to_int32(a) >> count_of(b)))
}

/// `>>>` (ECMA-262 11.7.3).
pub fn shifted_right_unsigned(a: Numeral, b: Numeral) -> Numeral
    ensures { shifted_right_unsigned a b ≡ Ok result }
{
    numeral(i64::from(to_uint32(a) >> count_of(b)))
}

fn count_of(b: Numeral) -> u32
    ensures count { result ≡ count_of b }
    ensures below { result < 32 }
{
    to_uint32(b) % 32
}

/// `&` (ECMA-262 11.10).
pub fn bits_and(a: Numeral, b: Numeral) -> Numeral
    ensures { bits_and a b ≡ Ok result }
{
    numeral(i64::from((to_uint32(a) & to_uint32(b)).cast_signed()))
}

/// `^` (ECMA-262 11.10).
pub fn bits_xor(a: Numeral, b: Numeral) -> Numeral
    ensures { bits_xor a b ≡ Ok result }
{
    numeral(i64::from((to_uint32(a) ^ to_uint32(b)).cast_signed()))
}

/// `|` (ECMA-262 11.10).
pub fn bits_or(a: Numeral, b: Numeral) -> Numeral
    ensures { bits_or a b ≡ Ok result }
{
    numeral(i64::from((to_uint32(a) | to_uint32(b)).cast_signed()))
}

/// `-` of one operand (ECMA-262 11.4.7).
pub fn negative(a: Numeral) -> Numeral
    ensures { negative a ≡ Ok result }
{
    match a {
        Numeral::Num(x) => numeral(-x.get()),
        Numeral::NaN => Numeral::NaN,
    }
}

/// `~` (ECMA-262 11.4.8).
pub fn bits_not(a: Numeral) -> Numeral
    ensures { bits_not a ≡ Ok result }
{
    numeral(-1 - i64::from(to_int32(a)))
}

// The whole number, where it is in range.
fn ranged(number: i64) -> Result<Numeral, Fault>
    ensures { result ≡ ranged number }
{
    match Whole::new(number) {
        Some(whole) => Ok(Numeral::Num(whole)),
        None => Err(Fault::OutOfRange),
    }
}

// A whole number that is known to be in range.
fn numeral(number: i64) -> Numeral
    requires { IsWhole number }
    ensures { result ≡ Numeral.Num number }
{
    match Whole::new(number) {
        Some(whole) => Numeral::Num(whole),
        None => Numeral::NaN,
    }
}
