//! Where a tree is too deep.

ghost use Rattle.std.specs.Prelude.{◌≡◌, reverse, IfOk, OnOk};
ghost use Rattle.rip_parser.specs.Search.{Search, below_one_more, found, is_deep, next_around, next_standing, noted, parenthesis_noted, pushed, standing_in, standing_within, taken};

use crate::forms::is_part;
use rip_base::NoMemory;
use rip_grammar::Event;
use std::alloc::Global;
use std::marker::Model;

/// The greatest depth of a tree that is answered. Levels past it count as this one.
const GREATEST_DEPTH: u32 = 200;

/// What a part of a script stands in.
#[derive(Clone, Copy, Debug, PartialEq, Eq)]
pub(crate) enum Standing {
    /// So many levels, none of which is a node that is too deep.
    Below(u32),
    /// A node that is too deep, and begins where its first part begins.
    Deep,
    /// A node that is too deep, and whose place is noted.
    Known,
}

/// Parts that are to come, of one node or of one pair of parentheses.
#[derive(Clone, Copy, Debug, PartialEq, Eq)]
pub(crate) struct Around {
    /// How many are to come behind the next one.
    pub more: u32,
    pub standing: Standing,
}

/// The place of a node that is too deep, and the parts that are to come.
#[derive(Debug, Drop)]
struct Finder {
    first: Option<u32>,
    around: Vec<Around>,
}

impl Model for Finder {
    ghost use Rattle.std.specs.Prelude.{reverse};
    ghost use Rattle.rip_parser.specs.Search.{Search};

    ghost Value = { Search };

    ghost view = { λ f. record { first = f.first; around = reverse f.around.items } };
}

/// The place of the first node that is too deep, of what is told of a script. Read from the last event to the first, a
/// node comes before its parts, and the parts from the last to the first, so that the place that is noted last is the
/// first.
pub(crate) fn first_too_deep(alloc: Global, events: &[Event]) -> Result<Option<u32>, NoMemory>
    ensures { IfOk result (λ place. place ≡ found (reverse events.now)) }
{
    let mut finder = Finder {
        first: None,
        around: Vec::new(alloc),
    };
    for event in events.iter().rev() {
        finder.take(*event)?;
    }
    Ok(finder.first)
}

impl Finder {
    /// Takes the event before those that were taken.
    fn take(&mut self, event: Event) -> Result<(), NoMemory>
        ensures { OnOk result (self.new ≡ taken event self.old) }
    {
        let standing = self.next()?;
        match event {
            Event::Absent => Ok(()),
            Event::Parenthesized(place) => {
                self.first = parenthesis_noted(standing, place, self.first);
                self.expect(1, standing_within(standing))
            }
            Event::Node { place, head, count } => {
                let part = is_part(head);
                let deep = is_deep(standing, part);
                self.first = noted(deep, place, self.first);
                self.expect(count, standing_in(deep, place, standing, part))
            }
        }
    }

    /// What the next part stands in; it is no longer to come.
    fn next(&mut self) -> Result<Standing, NoMemory>
        ensures standing { IfOk result (λ standing. standing ≡ next_standing self.old.around) }
        ensures left { OnOk result
            (self.new ≡ record self.old { around = next_around self.old.around }) }
    {
        match self.around.pop() {
            Some(around) => {
                self.expect(around.more, around.standing)?;
                Ok(around.standing)
            }
            None => Ok(Standing::Below(1)),
        }
    }

    /// So many parts are to come, before all others.
    fn expect(&mut self, count: u32, standing: Standing) -> Result<(), NoMemory>
        ensures { OnOk result
            (self.new ≡ record self.old { around = pushed count standing self.old.around }) }
    {
        if count > 0 {
            self.around.push(Around {
                more: count - 1,
                standing,
            })?;
        }
        Ok(())
    }
}

/// One level more.
fn below_one_more(levels: u32) -> u32
    ensures { result ≡ below_one_more levels }
{
    if levels < GREATEST_DEPTH {
        levels + 1
    } else {
        GREATEST_DEPTH
    }
}

/// Whether a node that stands so is too deep. What is a part of another node is no level.
fn is_deep(standing: Standing, part: bool) -> bool
    ensures { result ≡ is_deep standing part }
{
    match standing {
        Standing::Below(levels) => !part && levels >= GREATEST_DEPTH,
        Standing::Deep => true,
        Standing::Known => false,
    }
}

/// The place that is noted, once a node with this place or none is taken.
fn noted(deep: bool, place: Option<u32>, first: Option<u32>) -> Option<u32>
    ensures { result ≡ noted deep place first }
{
    match (deep, place) {
        (true, Some(place)) => Some(place),
        _ => first,
    }
}

/// What the parts of a node stand in.
fn standing_in(deep: bool, place: Option<u32>, standing: Standing, part: bool) -> Standing
    ensures { result ≡ standing_in deep place standing part }
{
    match (deep, place) {
        (true, Some(_)) => Standing::Known,
        (true, None) => Standing::Deep,
        (false, _) => match standing {
            Standing::Below(levels) => {
                if part {
                    Standing::Below(levels)
                } else {
                    Standing::Below(below_one_more(levels))
                }
            }
            Standing::Deep => Standing::Deep,
            Standing::Known => Standing::Known,
        },
    }
}

/// What stands in parentheses.
fn standing_within(standing: Standing) -> Standing
    ensures { result ≡ standing_within standing }
{
    match standing {
        Standing::Below(levels) => Standing::Below(below_one_more(levels)),
        Standing::Deep | Standing::Known => Standing::Known,
    }
}

/// The place that is noted, once parentheses are taken.
fn parenthesis_noted(standing: Standing, place: u32, first: Option<u32>) -> Option<u32>
    ensures { result ≡ parenthesis_noted standing place first }
{
    match standing {
        Standing::Deep => Some(place),
        Standing::Below(_) | Standing::Known => first,
    }
}
