ghost use Rattle.std.specs.Prelude.{◌≡◌, IfOk, IfErr};
ghost use Rattle.rip_wire.specs.Batches.{contents_of, IsBatch};
ghost use Rattle.rip_wire.specs.Laws.{TextTellsBatch, TextSpellsBatch, BodyTellsBatch, BodiesAreOneValue, BodyTellsAnswer};

use crate::error::WireError;
use crate::item::Batch;
use crate::read::read_batch;
use crate::write::write_batch;
use std::alloc::Global;

/// No two batches in range have one text.
pub fn texts_tell_batches()
    ensures { TextTellsBatch }
{}

/// Each batch in range is spelled by its text, so that it has a body.
pub fn texts_spell_batches()
    ensures { TextSpellsBatch }
{}

/// A body spells one batch at most, and the bodies that spell one batch are one value of JSON.
pub fn bodies_tell_batches()
    ensures batch { BodyTellsBatch }
    ensures value { BodiesAreOneValue }
{}

/// No two answers have one body.
pub fn bodies_tell_answers()
    ensures { BodyTellsAnswer }
{}

/// What [`write_batch`] writes of a batch in range, [`read_batch`] reads as the same batch, unless memory runs out.
pub fn written_is_read(alloc: Global, b: &Batch) -> Result<Batch, WireError>
    requires in_range { IsBatch (contents_of b.now) }
    ensures same { IfOk result (λ c. contents_of c ≡ contents_of b.now) }
    ensures accepted { IfErr result (λ e. e ≡ WireError.Memory) }
{
    let Ok(text) = write_batch(b, alloc) else {
        return Err(WireError::Memory);
    };
    read_batch(alloc, text.as_slice())
}
