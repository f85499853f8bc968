ghost use Rattle.std.specs.Prelude.{◌≡◌, ◌∷◌};
ghost use Rattle.rip_heap.specs.Outcome.{Answers};
ghost use Rattle.rip_builtins.specs.Arguments.{then_tries};
ghost use Rattle.rip_builtins.specs.Numbers.{absolute, math_abs, math_floor, math_extreme, extreme_of, extreme_of_two, numbers_of, is_nan_call, number_call};

use crate::arguments::argument;
use rip_base::{Fault, Numeral, Value, Whole};
use rip_heap::{Abrupt, Heap, number_done, to_number};

/// Which number of several is asked for.
#[derive(Clone, Copy, Debug, PartialEq, Eq)]
pub enum Extreme {
    Least,
    Greatest,
}

// `Math.abs` (ECMA-262 15.8.2.1).
pub fn math_abs(heap: &Heap, args: &[Value]) -> Result<Value, Abrupt>
    ensures { Answers (math_abs heap.now args.now) heap.now result heap.now }
{
    let number = to_number(heap, argument(args, 0))?;
    Ok(absolute(number).into())
}

fn absolute(number: Numeral) -> Numeral
    ensures { result ≡ absolute number }
{
    match number {
        Numeral::Num(whole) => match Whole::new(whole.get().abs()) {
            Some(absolute) => Numeral::Num(absolute),
            None => Numeral::NaN,
        },
        Numeral::NaN => Numeral::NaN,
    }
}

// `Math.floor` (ECMA-262 15.8.2.9).
pub fn math_floor(heap: &Heap, args: &[Value]) -> Result<Value, Abrupt>
    ensures { Answers (math_floor heap.now args.now) heap.now result heap.now }
{
    number_done(heap, to_number(heap, argument(args, 0)))
}

// `Math.min` and `Math.max` (ECMA-262 15.8.2.12, 15.8.2.11).
pub fn math_extreme(extreme: Extreme, heap: &Heap, args: &[Value]) -> Result<Value, Abrupt>
    ensures { Answers (math_extreme extreme heap.now args.now) heap.now result heap.now }
{
    number_done(heap, extreme_of(extreme, heap, args))
}

fn extreme_of(extreme: Extreme, heap: &Heap, args: &[Value]) -> Result<Numeral, Fault>
    ensures { result ≡ then_tries (numbers_of heap.now.pool args.now) (extreme_of extreme) }
{
    match args {
        [] => Err(Fault::Infinite),
        [first, rest @ ..] => {
            let number = to_number(heap, *first)?;
            extreme_from(extreme, heap, number, rest)
        }
    }
}

// The extreme of a number and those of the values behind it.
fn extreme_from(
    extreme: Extreme,
    heap: &Heap,
    first: Numeral,
    rest: &[Value],
) -> Result<Numeral, Fault>
    ensures { result ≡ then_tries (numbers_of heap.now.pool rest.now)
        (λ numbers. extreme_of extreme (first ∷ numbers)) }
{
    let mut best = first;
    for v in rest {
        let number = to_number(heap, *v)?;
        best = extreme_of_two(extreme, best, number);
    }
    Ok(best)
}

fn extreme_of_two(extreme: Extreme, a: Numeral, b: Numeral) -> Numeral
    ensures { result ≡ extreme_of_two extreme a b }
{
    match a {
        Numeral::Num(x) => match b {
            Numeral::Num(y) => match extreme {
                Extreme::Least => Numeral::Num(x.min(y)),
                Extreme::Greatest => Numeral::Num(x.max(y)),
            },
            Numeral::NaN => Numeral::NaN,
        },
        Numeral::NaN => Numeral::NaN,
    }
}

// `isNaN` (ECMA-262 15.1.2.4).
pub fn is_nan(heap: &Heap, args: &[Value]) -> Result<Value, Abrupt>
    ensures { Answers (is_nan_call heap.now args.now) heap.now result heap.now }
{
    let number = to_number(heap, argument(args, 0))?;
    Ok(Value::Bool(matches!(number, Numeral::NaN)))
}

// `Number` (ECMA-262 15.7.1.1).
pub fn number(heap: &Heap, args: &[Value]) -> Result<Value, Abrupt>
    ensures { Answers (number_call heap.now args.now) heap.now result heap.now }
{
    match args {
        [] => Ok(0.into()),
        [v, ..] => number_done(heap, to_number(heap, *v)),
    }
}
