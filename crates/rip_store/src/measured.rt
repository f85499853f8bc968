ghost use Rattle.std.specs.Prelude.{◌≡◌, min, length, option_map, OnOk, OnErr, IfOk, IfErr};
ghost use Rattle.rip_data.specs.Datum.{tree_of, canonical_text};
ghost use Rattle.rip_store.specs.Args.{list_of};
ghost use Rattle.rip_store.specs.Outcomes.{elements_in, with_item};

use crate::args::list_of;
use rip_base::NoMemory;
use rip_data::{Datum, DatumList, datum_size};
use std::marker::Model;
use std::mem::replace;

/// A datum with the bytes of its canonical text, so that a list grows and is not measured again. Contracts see the datum.
#[derive(Drop)]
pub(crate) struct Measured {
    datum: Datum,
    bytes: usize,
}

impl Model for Measured {
    ghost use Rattle.std.specs.Prelude.{◌≡◌, min, length};
    ghost use Rattle.rip_data.specs.Datum.{tree_of, canonical_text};
    ghost use Rattle.std.specs.Coded.{codes};
    ghost use Rattle.rip_data.specs.declared.datum.Datum.{Datum};
    ghost use Rattle.rip_data.specs.contracts.datum.Datum as datum_code;

    ghost Value = { Datum };

    ghost coded = { Prim.hlevel (codes, datum_code.the_row.coded) };

    ghost view = { λ m. m.datum };

    ghost invariant = { λ m. m.bytes ≡ min (length (canonical_text (tree_of m.datum)))
        18446744073709551615 };
}

impl Measured {
    /// The datum, measured.
    pub fn new(datum: Datum) -> Measured
        ensures { result ≡ datum }
    {
        let bytes = datum_size(&datum).length;
        Measured { datum, bytes }
    }

    /// The datum.
    pub fn datum(&self) -> &Datum
        ensures { result.now ≡ self.now }
    {
        &self.datum
    }

    /// The list that the datum is.
    pub fn list(&self) -> Option<&DatumList>
        ensures { option_map (λ l. elements_in l.now) result ≡ list_of (tree_of self.now) }
    {
        list_of(&self.datum)
    }

    /// The bytes of the text that the datum has with one more element, where it is a list.
    pub fn bytes_with(&self, item: &Datum) -> usize
        ensures { result ≡ min
            (length (canonical_text (with_item (tree_of self.now) (tree_of item.now)))) usize.MAX }
    {
        match &self.datum {
            Datum::List(list) => {
                let comma = if list.items.is_empty() { 0 } else { 1 };
                let before = self.bytes.saturating_add(comma);
                before.saturating_add(datum_size(item).length)
            }
            _ => self.bytes,
        }
    }

    /// A list gets one more element behind the others, without a copy of them. Another datum stays as it is.
    pub fn push(&mut self, item: Datum) -> Result<(), NoMemory>
        ensures pushed { OnOk result
            (tree_of self.new ≡ with_item (tree_of self.old) (tree_of item)) }
        ensures no_memory { OnErr result (tree_of self.new ≡ tree_of self.old) }
    {
        let bytes = self.bytes_with(&item);
        match with_item(replace(&mut self.datum, Datum::Null), item) {
            Ok(datum) => {
                self.datum = datum;
                self.bytes = bytes;
                Ok(())
            }
            Err(datum) => {
                self.datum = datum;
                Err(NoMemory)
            }
        }
    }
}

// A list with the item behind its elements, which are moved and not copied, or the list as it was for want of memory.
// Another datum stays as it is.
fn with_item(datum: Datum, item: Datum) -> Result<Datum, Datum>
    ensures pushed { IfOk result (λ d. tree_of d ≡ with_item (tree_of datum) (tree_of item)) }
    ensures no_memory { IfErr result (λ d. tree_of d ≡ tree_of datum) }
{
    match datum {
        Datum::List(list) => {
            let mut items = list.items;
            match items.push(item) {
                Ok(()) => Ok(Datum::List(DatumList { items })),
                Err(_) => Err(Datum::List(DatumList { items })),
            }
        }
        other => Ok(other),
    }
}
