ghost use Rattle.std.specs.Prelude.{◌≡◌, ◌≤◌, take_while, length, IfSome};
ghost use Rattle.std.specs.List.{prefix_len};
ghost use Rattle.rip_base.specs.NumberScan.{is_digit};
ghost use Rattle.rip_values.specs.Pool.{text_at};
ghost use Rattle.rip_base.specs.declared.value.Value.TheVariants.{Num};
ghost use Rattle.rip_heap.specs.Conversions.{text_of_value};
ghost use Rattle.rip_heap.specs.Growth.{Grows};
ghost use Rattle.rip_heap.specs.Outcome.{Answers, after_text};
ghost use Rattle.rip_builtins.specs.Arguments.{value_or_fault};
ghost use Rattle.rip_builtins.specs.ParseInt.{is_marked, base_of, without_mark, number_of_digits, number_behind_sign, integer_at_start, integer_by_radix, value_by_radix, parse_int};

use crate::arguments::argument;
use crate::numerals::behind_numeral;
use crate::outcome::value_done;
use rip_base::{
    Fault, Numeral, Value, Whole, digit_value, split_sign, text_of_whole, trim_start, whole_of,
};
use rip_heap::{Abrupt, Heap, to_int32, to_number, to_text};
use std::alloc::Global;

const ZERO: u16 = 0x30;

const CAPITAL_X: u16 = 0x58;

const SMALL_X: u16 = 0x78;

// `parseInt` (ECMA-262 15.1.2.2).
pub fn parse_int(alloc: Global, heap: &mut Heap, args: &[Value]) -> Result<Value, Abrupt>
    ensures answers { Answers (parse_int heap.old args.now) heap.old result heap.new }
    ensures grows { Grows heap.old heap.new }
{
    parsed(alloc, heap, argument(args, 0), argument(args, 1))
}

fn parsed(alloc: Global, heap: &mut Heap, text: Value, radix: Value) -> Result<Value, Abrupt>
    ensures answers { Answers
        (after_text (text_of_value heap.old text)
        (λ span v. value_or_fault v (value_by_radix heap.old.pool radix (text_at v.pool span))))
        heap.old result heap.new }
    ensures grows { Grows heap.old heap.new }
{
    match text {
        Value::Num(number) => parsed_numeral(alloc, heap, number, radix),
        _ => {
            let span = to_text(alloc, heap, text)?;
            value_done(heap, value_by_radix(heap, radix, heap.pool().get(span)))
        }
    }
}

// The same of a number, whose numeral is charged where there is an answer.
fn parsed_numeral(
    alloc: Global,
    heap: &mut Heap,
    number: Whole,
    radix: Value,
) -> Result<Value, Abrupt>
    ensures answers { Answers
        (after_text (text_of_value heap.old (Num number))
        (λ span v. value_or_fault v (value_by_radix heap.old.pool radix (text_at v.pool span))))
        heap.old result heap.new }
    ensures grows { Grows heap.old heap.new }
{
    let mut room = [0; 17];
    let count = text_of_whole(number, &mut room);
    let answer = value_by_radix(heap, radix, &room[..count]);
    behind_numeral(alloc, heap, number, answer)
}

// The number that the text begins with, as a value.
fn value_by_radix(heap: &Heap, radix: Value, text: &[u16]) -> Result<Value, Fault>
    ensures { result ≡ value_by_radix heap.now.pool radix text.now }
{
    let number = integer_by_radix(heap, radix, text)?;
    Ok(number.into())
}

// The number that the text begins with, by a radix that is made a number first.
fn integer_by_radix(heap: &Heap, radix: Value, text: &[u16]) -> Result<Numeral, Fault>
    ensures { result ≡ integer_by_radix heap.now.pool radix text.now }
{
    let number = to_number(heap, radix)?;
    integer_at_start(text, to_int32(number))
}

fn integer_at_start(text: &[u16], radix: i32) -> Result<Numeral, Fault>
    ensures { result ≡ integer_at_start text.now radix }
{
    let (negative, rest) = split_sign(trim_start(text));
    match base_of(radix, rest) {
        Some(base) => number_of_digits(negative, base, digits_of(base, rest)),
        None => Ok(Numeral::NaN),
    }
}

// Whether the text begins with the mark of base 16.
fn is_marked(text: &[u16]) -> bool
    ensures { result ≡ is_marked text.now }
{
    matches!(text, [ZERO, CAPITAL_X | SMALL_X, ..])
}

fn base_of(radix: i32, text: &[u16]) -> Option<u16>
    ensures base { result ≡ base_of radix text.now }
    ensures within { IfSome result (λ base. base ≤ 36) }
{
    if radix == 0 {
        return if is_marked(text) { Some(16) } else { Some(10) };
    }
    if 2 <= radix && radix <= 36 {
        Some(radix as u16)
    } else {
        None
    }
}

// The digits that the text begins with.
fn digits_of(base: u16, text: &[u16]) -> &[u16]
    ensures { result.now ≡ take_while (is_digit base) (without_mark base text.now) }
{
    if base == 16 && is_marked(text) {
        leading_digits(base, &text[2..])
    } else {
        leading_digits(base, text)
    }
}

fn leading_digits(base: u16, text: &[u16]) -> &[u16]
    ensures { result.now ≡ take_while (is_digit base) text.now }
{
    &text[..count_of_digits(base, text)]
}

fn count_of_digits(base: u16, text: &[u16]) -> usize
    ensures count { result ≡ prefix_len (is_digit base) text.now }
    ensures within { result ≤ length text.now }
{
    text.iter()
        .take_while(|unit| digit_value(**unit) < base)
        .count()
}

// The number of a sign and digits, of which there may be none.
#[tactic(auto, using(crate::proofs::RangedLemmas::ranged_one))]
fn number_of_digits(negative: bool, base: u16, digits: &[u16]) -> Result<Numeral, Fault>
    requires { base ≤ 36 }
    ensures { result ≡ number_of_digits negative base digits.now }
{
    if digits.is_empty() {
        return Ok(Numeral::NaN);
    }
    whole_of(negative, base, digits)
}
