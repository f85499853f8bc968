ghost use Rattle.std.specs.Prelude.{◌≡◌, OnOk};
ghost use Rattle.rip_parser.specs.Building.{deeper, greatest, levels_over, numbers, place_over};

use rip_base::NoMemory;

/// The depth of a tree that is too deep; all depths past it count as this one.
pub(crate) const TOO_DEEP: u32 = 201;

/// A part of a script that was told and that no node has taken yet.
#[derive(Clone, Copy, Debug, PartialEq, Eq)]
pub(crate) struct Part {
    /// The number of its node; none where it is not there.
    pub number: Option<u32>,
    /// The place of its first unit, a `(` before it counted.
    pub place: u32,
    /// How many levels it has, up to [`TOO_DEEP`].
    pub levels: u32,
}

/// One level more, up to [`TOO_DEEP`].
pub(crate) fn deeper(levels: u32) -> u32
    ensures { result ≡ deeper levels }
{
    if levels < TOO_DEEP {
        levels + 1
    } else {
        TOO_DEEP
    }
}

/// The most levels of parts.
pub(crate) fn greatest(parts: &[Part]) -> u32
    ensures { result ≡ greatest parts.now }
{
    let mut rest = parts;
    let mut most = 0;
    while let [part, after @ ..] = rest {
        most = part.levels.max(most);
        rest = after;
    }
    most
}

/// The levels of a node over its parts. What is itself a part of another node is no level.
pub(crate) fn levels_over(is_part: bool, parts: &[Part]) -> u32
    ensures { result ≡ levels_over is_part parts.now }
{
    let levels = greatest(parts);
    if is_part { levels } else { deeper(levels) }
}

/// Where a node begins that has this place, or else begins with its first part.
pub(crate) fn place_over(place: Option<u32>, parts: &[Part]) -> u32
    ensures { result ≡ place_over place parts.now }
{
    match (place, parts) {
        (Some(place), _) => place,
        (None, [first, ..]) => first.place,
        (None, []) => 0,
    }
}

/// Puts the numbers of parts into a list, in place of what it held.
pub(crate) fn list_numbers(list: &mut Vec<Option<u32>>, parts: &[Part]) -> Result<(), NoMemory>
    ensures { OnOk result (list.new.items ≡ numbers parts.now) }
{
    list.clear();
    for part in parts {
        list.push(part.number)?;
    }
    Ok(())
}
