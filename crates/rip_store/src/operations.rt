ghost use Rattle.std.specs.Prelude.{◌≡◌, pos, ◌≤◌, map, None, option_map, IfOk, IfErr, MatchOption};
ghost use Rattle.std.specs.Option.{IsSomeAnd};
ghost use Rattle.rip_data.specs.Datum.{tree_of, elements_of};
ghost use Rattle.rip_store.specs.Operations.{get, put, add, take, push, list, operate, kept, number_or_zero, list_or_empty, or_null, whole_sum, short_list, with_last};
ghost use Rattle.rip_store.specs.Held.{stored_in};
ghost use Rattle.rip_store.specs.Outcomes.{outcome_of, IsCause, IsSizeOf, longer_count};

use crate::args::{key_and_value, number_of, one_key};
use crate::failure::Failure;
use crate::measured::Measured;
use crate::outcome::{Done, ListSize, Write};
use crate::places::Places;
use crate::refusal::Refusal;
use rip_base::{NoMemory, Whole};
use rip_data::{Datum, DatumList, MAX_LENGTH, copy_datum, datum_size};
use rip_manifest::Operation;
use std::alloc::Global;

/// What an operation gives under a prefix.
pub(crate) fn operate(
    op: Operation,
    alloc: Global,
    places: &Places,
    prefix: &[u8],
    args: &[Datum],
) -> Result<Done, Failure>
    ensures done { IfOk result
        (λ d. operate op (stored_in places.now) prefix.now (map tree_of args.now)
        ≡ Ok (outcome_of (stored_in places.now) d)) }
    ensures refused { IfErr result
        (λ f. IsCause f (operate op (stored_in places.now) prefix.now (map tree_of args.now))) }
{
    match op {
        Operation::Get => get(alloc, places, prefix, args),
        Operation::Put => put(alloc, places, prefix, args),
        Operation::Add => add(alloc, places, prefix, args),
        Operation::Take => take(alloc, places, prefix, args),
        Operation::Push => push(alloc, places, prefix, args),
        Operation::List => list(alloc, places, prefix, args),
    }
}

fn get(alloc: Global, places: &Places, prefix: &[u8], args: &[Datum]) -> Result<Done, Failure>
    ensures done { IfOk result
        (λ d. get (stored_in places.now) prefix.now (map tree_of args.now)
        ≡ Ok (outcome_of (stored_in places.now) d)) }
    ensures refused { IfErr result
        (λ f. IsCause f (get (stored_in places.now) prefix.now (map tree_of args.now))) }
{
    let place = one_key(alloc, prefix, args)?;
    let reply = copy_or_null(alloc, places.get(place.as_slice()))?;
    Ok(Done {
        write: Write::Nothing,
        reply,
    })
}

fn put(alloc: Global, places: &Places, prefix: &[u8], args: &[Datum]) -> Result<Done, Failure>
    ensures done { IfOk result
        (λ d. put (stored_in places.now) prefix.now (map tree_of args.now)
        ≡ Ok (outcome_of (stored_in places.now) d)) }
    ensures refused { IfErr result
        (λ f. IsCause f (put (stored_in places.now) prefix.now (map tree_of args.now))) }
{
    let (place, value) = key_and_value(alloc, prefix, args)?;
    let datum = copy_datum(alloc, value)?;
    kept(places, place, datum, Datum::Bool(true))
}

fn add(alloc: Global, places: &Places, prefix: &[u8], args: &[Datum]) -> Result<Done, Failure>
    ensures done { IfOk result
        (λ d. add (stored_in places.now) prefix.now (map tree_of args.now)
        ≡ Ok (outcome_of (stored_in places.now) d)) }
    ensures refused { IfErr result
        (λ f. IsCause f (add (stored_in places.now) prefix.now (map tree_of args.now))) }
{
    let (place, value) = key_and_value(alloc, prefix, args)?;
    let Some(n) = number_of(value) else {
        return Err(Failure::Refused(Refusal::Arguments));
    };
    let Some(m) = number_or_zero(places.get(place.as_slice())) else {
        return Err(Failure::Refused(Refusal::Range));
    };
    let Some(sum) = whole_sum(m, n) else {
        return Err(Failure::Refused(Refusal::Range));
    };
    kept(places, place, Datum::Num(sum), Datum::Num(sum))
}

fn take(alloc: Global, places: &Places, prefix: &[u8], args: &[Datum]) -> Result<Done, Failure>
    ensures done { IfOk result
        (λ d. take (stored_in places.now) prefix.now (map tree_of args.now)
        ≡ Ok (outcome_of (stored_in places.now) d)) }
    ensures refused { IfErr result
        (λ f. IsCause f (take (stored_in places.now) prefix.now (map tree_of args.now))) }
{
    let place = one_key(alloc, prefix, args)?;
    let reply = copy_or_null(alloc, places.get(place.as_slice()))?;
    Ok(Done {
        write: Write::Remove(place),
        reply,
    })
}

fn push(alloc: Global, places: &Places, prefix: &[u8], args: &[Datum]) -> Result<Done, Failure>
    ensures done { IfOk result
        (λ d. push (stored_in places.now) prefix.now (map tree_of args.now)
        ≡ Ok (outcome_of (stored_in places.now) d)) }
    ensures refused { IfErr result
        (λ f. IsCause f (push (stored_in places.now) prefix.now (map tree_of args.now))) }
{
    let (place, value) = key_and_value(alloc, prefix, args)?;
    let count = longer_count(places.measured(place.as_slice()), value)?;
    if places.is_full(place.as_slice()) {
        return Err(Failure::Refused(Refusal::Full));
    }
    let item = copy_datum(alloc, value)?;
    Ok(Done {
        write: Write::Push(place, item),
        reply: Datum::Num(count),
    })
}

fn list(alloc: Global, places: &Places, prefix: &[u8], args: &[Datum]) -> Result<Done, Failure>
    ensures done { IfOk result
        (λ d. list (stored_in places.now) prefix.now (map tree_of args.now)
        ≡ Ok (outcome_of (stored_in places.now) d)) }
    ensures refused { IfErr result
        (λ f. IsCause f (list (stored_in places.now) prefix.now (map tree_of args.now))) }
{
    if !args.is_empty() {
        return Err(Failure::Refused(Refusal::Arguments));
    }
    let Some(reply) = short_list(places.keys_under(alloc, prefix)?) else {
        return Err(Failure::Refused(Refusal::Range));
    };
    Ok(Done {
        write: Write::Nothing,
        reply,
    })
}

// The place gets the datum, unless the store is full.
fn kept(places: &Places, place: Vec<u8>, datum: Datum, reply: Datum) -> Result<Done, Failure>
    ensures done { IfOk result
        (λ d. kept (stored_in places.now) place.items (tree_of datum) (tree_of reply)
        ≡ Ok (outcome_of (stored_in places.now) d)) }
    ensures refused { IfErr result
        (λ f. IsCause f (kept (stored_in places.now) place.items (tree_of datum) (tree_of reply))) }
{
    if places.is_full(place.as_slice()) {
        return Err(Failure::Refused(Refusal::Full));
    }
    Ok(Done {
        write: Write::Keep(place, datum),
        reply,
    })
}

// A copy of the datum, or null.
fn copy_or_null(alloc: Global, datum: Option<&Datum>) -> Result<Datum, NoMemory>
    ensures { IfOk result (λ d. tree_of d ≡ or_null (option_map (λ v. tree_of v.now) datum.entry)) }
{
    match datum {
        Some(datum) => copy_datum(alloc, datum),
        None => Ok(Datum::Null),
    }
}

// The number, where an absent one counts as 0.
fn number_or_zero(datum: Option<&Datum>) -> Option<Whole>
    ensures { result ≡ number_or_zero (option_map (λ v. tree_of v.now) datum.entry) }
{
    match datum {
        Some(datum) => number_of(datum),
        None => Whole::new(0),
    }
}

// How many elements the list has with one more, where its text stays short enough.
fn longer_count(held: Option<&Measured>, value: &Datum) -> Result<Whole, Failure>
    ensures count { IfOk result
        (λ n. longer_count (list_or_empty (option_map (λ m. tree_of m.now) held.entry))
        (tree_of value.now) ≡ Ok n) }
    ensures refused { IfErr result
        (λ f. IsCause f (longer_count (list_or_empty (option_map (λ m. tree_of m.now) held.entry)) (tree_of value.now))) }
{
    let Some(size) = longer_size(held, value) else {
        return Err(Failure::Refused(Refusal::Range));
    };
    if size.length > MAX_LENGTH {
        return Err(Failure::Refused(Refusal::Full));
    }
    Ok(whole_of(size.count))
}

// How large the list is with one more element, where an absent one counts as `[]`.
fn longer_size(held: Option<&Measured>, value: &Datum) -> Option<ListSize>
    ensures { MatchOption (list_or_empty (option_map (λ m. tree_of m.now) held.entry))
        (result ≡ None)
        (λ es. IsSomeAnd result (IsSizeOf (with_last es (tree_of value.now)))) }
{
    let Some(held) = held else {
        return Some(ListSize {
            count: 1,
            length: datum_size(value).length.saturating_add(2),
        });
    };
    let list = held.list()?;
    Some(ListSize {
        count: list.items.len() + 1,
        length: held.bytes_with(value),
    })
}

// The sum, where it is in range.
fn whole_sum(m: Whole, n: Whole) -> Option<Whole>
    ensures { result ≡ whole_sum m n }
{
    Whole::new(m.get() + n.get())
}

// The length of a short list.
fn whole_of(count: usize) -> Whole
    requires { count ≤ 16384 }
    ensures { result ≡ pos count }
{
    match Whole::new(count as i64) {
        Some(whole) => whole,
        None => unreachable!(),
    }
}

// The list, where its text is short enough.
fn short_list(items: Vec<Datum>) -> Option<Datum>
    ensures { option_map tree_of result ≡ short_list (elements_of (map tree_of items.items)) }
{
    let list = Datum::List(DatumList { items });
    if datum_size(&list).length > MAX_LENGTH {
        return None;
    }
    Some(list)
}
