ghost use Rattle.std.specs.Prelude.{◌≡◌, ◌++◌, ◌∷◌, [], ℕ, List as Items, IfOk};
ghost use Rattle.rip_markup.specs.Words.{is_among};
ghost use Rattle.rip_markup.specs.Known.{Knows};

use rip_base::NoMemory;
use std::alloc::Global;
use std::collections::BTreeSet;

/// Puts a name among those that the set knows, and answers whether it knew it.
pub(crate) fn add_name(
    alloc: Global,
    seen: &mut BTreeSet<Vec<u16>>,
    name: &[u16],
) -> Result<bool, NoMemory>
    ensures { (names : Items (Items ℕ)) → Knows seen.old names
        → IfOk result (λ double. (double ≡ is_among names name.now)
        × Knows seen.new (names ++ name.now ∷ [])) }
{
    let key = Vec::from_slice(alloc, name)?;
    let added = seen.insert(key)?;
    Ok(!added)
}

/// A set that knows no name.
pub(crate) fn no_names(alloc: Global) -> BTreeSet<Vec<u16>>
    ensures { Knows result [] }
{
    BTreeSet::new(alloc)
}
