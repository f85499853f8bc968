//! Laws of the canonical text, as contracts.
ghost use Rattle.std.specs.Prelude.{◌≡◌, ◌≤◌, length, IfOk, IfErr};
ghost use Rattle.rip_data.specs.Datum.{tree_of, canonical_text, nesting, IsDatum};
ghost use Rattle.rip_data.specs.Laws.{TextIsInjective};

use crate::datum::Datum;
use crate::error::DataError;
use crate::read::{read_datum, read_long};
use crate::write::write_datum;
use std::alloc::Global;

/// No two well-made data have one canonical text.
pub fn text_is_injective()
    ensures { TextIsInjective }
{}

/// What [`write_datum`] writes of a well-made datum of at most 8 levels and 16,384 bytes, [`read_datum`] reads as the
/// same datum, unless memory runs out.
pub fn written_is_read(alloc: Global, d: &Datum) -> Result<Datum, DataError>
    requires made { IsDatum (tree_of d.now) }
    requires shallow { nesting (tree_of d.now) ≤ 8 }
    requires short { length (canonical_text (tree_of d.now)) ≤ 16384 }
    ensures same { IfOk result (λ e. tree_of e ≡ tree_of d.now) }
    ensures accepted { IfErr result (λ e. e ≡ DataError.Memory) }
{
    let Ok(text) = write_datum(d, alloc) else {
        return Err(DataError::Memory);
    };
    read_datum(alloc, text.as_slice())
}

/// The same of [`read_long`], at any length.
pub fn written_is_read_long(alloc: Global, d: &Datum) -> Result<Datum, DataError>
    requires made { IsDatum (tree_of d.now) }
    requires shallow { nesting (tree_of d.now) ≤ 8 }
    ensures same { IfOk result (λ e. tree_of e ≡ tree_of d.now) }
    ensures accepted { IfErr result (λ e. e ≡ DataError.Memory) }
{
    let Ok(text) = write_datum(d, alloc) else {
        return Err(DataError::Memory);
    };
    read_long(alloc, text.as_slice())
}
