ghost use Rattle.std.specs.Prelude.{◌≡◌, IfOk};
ghost use Rattle.rip_data.specs.Datum.{tree_of};
ghost use Rattle.rip_store.specs.Apply.{error, word};

use crate::failure::Failure;
use rip_base::{NoMemory, Units};
use rip_data::{Datum, DatumFields};
use std::alloc::Global;

/// Why a call is refused. The order is that of the judgement: the first that holds is answered.
#[derive(Clone, Copy, Debug, PartialEq, Eq)]
pub enum Refusal {
    /// No function has this name.
    Unknown,
    /// The args are not of the form that the operation asks for.
    Arguments,
    /// `add` finds no number or its sum leaves the whole numbers, `push` finds no list, or the text of `list` would pass
    /// 16,384 bytes.
    Range,
    /// A new key would be the 4,097th, or the text of the new list would pass 16,384 bytes.
    Full,
}

impl Refusal {
    /// The reply that tells the refusal: `{"error":E}`.
    pub(crate) fn reply(self, alloc: Global) -> Result<Datum, NoMemory>
        ensures { IfOk result (λ d. tree_of d ≡ error self) }
    {
        let name = units_of(alloc, b"error")?;
        let word = units_of(alloc, self.word())?;
        let mut fields = Vec::with_capacity(alloc, 1)?;
        fields.push((name, Datum::Text(word)))?;
        Ok(Datum::Fields(DatumFields { fields }))
    }

    fn word(self) -> &'static [u8]
        ensures { result.now ≡ word self }
    {
        match self {
            Refusal::Unknown => b"unknown",
            Refusal::Arguments => b"arguments",
            Refusal::Range => b"range",
            Refusal::Full => b"full",
        }
    }
}

// A text of ASCII, whose units are its bytes.
fn units_of(alloc: Global, text: &[u8]) -> Result<Units, NoMemory>
    ensures { IfOk result (λ units. units ≡ text.now) }
{
    let units: Vec<u16> = text.iter().map(|b| u16::from(*b)).collect(alloc)?;
    Ok(Units::from_vec(units))
}
