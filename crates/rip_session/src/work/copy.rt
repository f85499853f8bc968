ghost use Rattle.std.specs.Prelude.{◌≡◌, IfOk};
ghost use Rattle.rip_data.specs.Datum.{trees_in};
ghost use Rattle.rip_session.specs.Copies.{IsCopy};

use rip_base::{NoMemory, Units};
use rip_data::{DatumList, copy_list};
use rip_replica::Call;
use std::alloc::Global;

/// A copy of a call by its parts.
pub(crate) fn copy_call(
    alloc: Global,
    number: u64,
    name: &Units,
    args: &DatumList,
) -> Result<Call, NoMemory>
    ensures { IfOk result (IsCopy number name.now (trees_in args.now)) }
{
    let args = copy_list(alloc, args)?;
    Ok(Call {
        number,
        name: Units::from_slice(alloc, name.as_slice())?,
        args,
    })
}

/// A copy of a text, if there is one.
pub(crate) fn copy_text(alloc: Global, text: &Option<Units>) -> Result<Option<Units>, NoMemory>
    ensures { IfOk result (λ copy. copy ≡ text.now) }
{
    match text {
        Some(text) => Ok(Some(Units::from_slice(alloc, text.as_slice())?)),
        None => Ok(None),
    }
}
