ghost use Rattle.std.specs.Prelude.{◌≡◌, map, option_map, IfOk, IfErr, Some};
ghost use Rattle.std.specs.Option.{ok_or};
ghost use Rattle.rip_data.specs.Datum.{tree_of, utf8_of};
ghost use Rattle.rip_store.specs.declared.refusal.Refusal.TheVariants.{Arguments};
ghost use Rattle.rip_store.specs.Args.{place_of, one_key, key_and_value, number_of, list_of, no_key};
ghost use Rattle.rip_store.specs.Outcomes.{IsCause, elements_in};

use crate::failure::Failure;
use crate::limits::LONGEST_KEY;
use crate::refusal::Refusal;
use rip_base::{Units, Whole};
use rip_data::{Datum, DatumList};
use std::alloc::{AllocError, Global};

/// The UTF-8 of a text.
pub(crate) fn bytes_of(alloc: Global, text: &Units) -> Result<Vec<u8>, AllocError>
    ensures { IfOk result (λ bytes. bytes.items ≡ utf8_of text.now) }
{
    let text = String::from_utf16_lossy(alloc, text.as_slice())?;
    Ok(text.into_bytes())
}

/// The place that a key names behind the prefix.
pub(crate) fn place_of(alloc: Global, prefix: &[u8], key: &Datum) -> Result<Vec<u8>, Failure>
    ensures place { IfOk result (λ p. place_of prefix.now (tree_of key.now) ≡ Some p.items) }
    ensures refused { IfErr result
        (λ f. IsCause f (ok_or (place_of prefix.now (tree_of key.now)) Arguments)) }
{
    let Datum::Text(key) = key else {
        return Err(Failure::Refused(Refusal::Arguments));
    };
    let key = bytes_of(alloc, key)?;
    if key.len() > LONGEST_KEY {
        return Err(Failure::Refused(Refusal::Arguments));
    }
    let mut place = Vec::from_slice(alloc, prefix)?;
    place.extend_from_slice(key.as_slice())?;
    Ok(place)
}

/// The place that args `[key]` name.
pub(crate) fn one_key(alloc: Global, prefix: &[u8], args: &[Datum]) -> Result<Vec<u8>, Failure>
    ensures place { IfOk result (λ p. one_key prefix.now (map tree_of args.now) ≡ Some p.items) }
    ensures refused { IfErr result
        (λ f. IsCause f (ok_or (one_key prefix.now (map tree_of args.now)) Arguments)) }
{
    match args {
        [key] => place_of(alloc, prefix, key),
        _ => Err(Failure::Refused(Refusal::Arguments)),
    }
}

/// The place and the datum of args `[key,v]`.
pub(crate) fn key_and_value<'a>(
    alloc: Global,
    prefix: &[u8],
    args: &'a [Datum],
) -> Result<(Vec<u8>, &'a Datum), Failure>
    ensures found { IfOk result
        (λ a. key_and_value prefix.now (map tree_of args.now) ≡ Some (a.0.items, tree_of a.1.now)) }
    ensures refused { IfErr result
        (λ f. IsCause f (ok_or (key_and_value prefix.now (map tree_of args.now)) Arguments)) }
{
    match args {
        [key, value] => {
            let place = place_of(alloc, prefix, key)?;
            Ok((place, value))
        }
        _ => Err(Failure::Refused(Refusal::Arguments)),
    }
}

/// The number that a datum is.
pub(crate) fn number_of(datum: &Datum) -> Option<Whole>
    ensures { result ≡ number_of (tree_of datum.now) }
{
    match datum {
        Datum::Num(whole) => Some(*whole),
        _ => None,
    }
}

/// The list that a datum is.
pub(crate) fn list_of(datum: &Datum) -> Option<&DatumList>
    ensures { option_map (λ l. elements_in l.now) result ≡ list_of (tree_of datum.now) }
{
    match datum {
        Datum::List(list) => Some(list),
        _ => None,
    }
}
