ghost use Rattle.std.specs.Prelude.{◌≡◌, ◌≤◌, List as Items, IfOk, length};
ghost use Rattle.rip_markup.specs.Counts.{HaveUnits};
ghost use Rattle.rip_markup.specs.Tokens.{IsTokens, HasOneList, HasSomeList, dropped};
ghost use Rattle.rip_markup.specs.Within.{AreWithin};

use crate::ascii::LINE_FEED;
use crate::reading::first_token;
use crate::token::{Content, Placed};
use rip_base::{List, NoMemory};
use std::alloc::Global;

/// The tokens of a page's text, whose lines end in LF (HTML 13.2.5). The last one is the end of the page or the first
/// that is refused for itself. A text whose places 32 bits cannot count is answered with want of memory.
pub fn tokens(alloc: Global, text: &[u16]) -> Result<List<Placed>, NoMemory>
    // What is answered is so.
    ensures found { IfOk result (IsTokens text.now) }

    // What is so is answered.
    ensures only { (others : Items Placed) → IsTokens text.now others
        → IfOk result (λ made. made ≡ others) }
{
    if text.len() > u32::MAX as usize {
        return Err(NoMemory);
    }
    let mut made = Vec::new(alloc);
    let mut content = Content::Markup;
    let mut place: usize = 0;
    let mut rest = text;
    'page: loop {
        let skipped = dropped(content, rest);
        let (_, start) = rest.split_at(skipped);
        let (token, count) = first_token(alloc, content, start)?;
        let last = token.is_last();
        let next = token.content_after();
        made.push(Placed {
            place: place + skipped,
            token,
        })?;
        if last {
            return Ok(List::from_vec(made));
        }
        content = next;
        place += skipped + count;
        (_, rest) = start.split_at(count);
    }
}

/// How many units at the beginning of an element's content are dropped (HTML 13.1.2.5).
fn dropped(content: Content, text: &[u16]) -> usize
    ensures value { result ≡ dropped content text.now }
    ensures bound { result ≤ length text.now }
{
    match text {
        [LINE_FEED, ..] if content.drops_line() => 1,
        _ => 0,
    }
}

/// A page has one list of tokens.
pub fn tokens_are_one()
    ensures { HasOneList }
{}

/// Each text has tokens.
pub fn texts_have_tokens()
    ensures { HasSomeList }
{}

/// The tokens of a text, and what is wrong with them, stand within it.
pub fn tokens_are_within()
    ensures { AreWithin }
{}

/// A text has as many units as its tokens have at least.
pub fn tokens_have_units()
    ensures { HaveUnits }
{}
