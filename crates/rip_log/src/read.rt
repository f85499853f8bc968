ghost use Rattle.std.specs.Prelude.{◌≡◌, ◌≢◌, ◌∷◌, ◌++◌, ◌<◌, ℕ, List as Sequence, length, map, IfOk, IfErr, IfSome, IfNone, IsErrOf};
ghost use Rattle.std.specs.List.{join_with_byte};
ghost use Rattle.rip_log.specs.Entries.{Recorded, recorded_of, entry_words, entry_text};
ghost use Rattle.rip_log.specs.Histories.{history_text, IsHistory, IsRefusal};
ghost use Rattle.rip_log.specs.Ranges.{IsRecorded};
ghost use Rattle.rip_log.specs.Lines.{HasNoFeed};

use crate::entry::{Entries, Entry};
use crate::error::LogRefusal;
use crate::kinds::entry_of;
use crate::words::Words;
use rip_base::List;
use rip_wire::LineError;
use std::alloc::Global;

/// The history whose log the text is.
pub fn read_log(alloc: Global, text: &[u8]) -> Result<Entries, LogRefusal>
    ensures ok { IfOk result (λ entries. text.now ≡ history_text (map recorded_of entries)) }
    ensures in_range { IfOk result (λ entries. IsHistory (map recorded_of entries)) }
    ensures refused { IfErr result (IsRefusal text.now) }
{
    let mut entries = Vec::new(alloc);
    let mut rest = text;
    while !rest.is_empty() {
        match read_first(alloc, rest) {
            Ok(First { entry, behind }) => {
                entries.push(entry)?;
                rest = behind;
            }
            Err(LineError::Other) => return Err(LogRefusal::Line(entries.len() as u64 + 1)),
            Err(LineError::Memory) => return Err(LogRefusal::Memory),
        }
    }
    Ok(List::from_vec(entries))
}

/// The entry whose line a text begins with, and what stands behind that line.
#[derive(Drop)]
struct First<'a> {
    entry: Entry,
    behind: &'a [u8],
}

/// The first entry of the text.
#[tactic(auto, using(crate::proofs::LineLemmas::no_feed, crate::proofs::LineLemmas::other_line, crate::proofs::LineLemmas::first_line, crate::proofs::LineLemmas::shorter_behind))]
fn read_first(alloc: Global, text: &[u8]) -> Result<First<'_>, LineError>
    ensures is { IfOk result (λ f. text.now ≡ entry_text (recorded_of f.entry) ++ f.behind.now) }
    ensures in_range { IfOk result (λ f. IsRecorded (recorded_of f.entry)) }
    ensures shorter { IfOk result (λ f. length f.behind.now < length text.now) }
    ensures other { IsErrOf result LineError.Other
        → (r : Recorded) (rest : Sequence ℕ) → IsRecorded r → text.now ≢ entry_text r ++ rest }
{
    let Some((line, behind)) = split_line(text) else {
        return Err(LineError::Other);
    };
    let entry = entry_in(alloc, line)?;
    Ok(First { entry, behind })
}

/// The first line of the text, without its line feed, and what stands behind it.
fn split_line(text: &[u8]) -> Option<(&[u8], &[u8])>
    ensures is { IfSome result (λ p. text.now ≡ p.0.now ++ 10 ∷ p.1.now) }
    ensures line { IfSome result (λ p. HasNoFeed p.0.now) }
    ensures none { IfNone result (HasNoFeed text.now) }
{
    for (at, byte) in text.iter().enumerate() {
        if *byte == b'\n' {
            return Some((&text[..at], &text[at + 1..]));
        }
    }
    None
}

/// The entry whose line this is, without its line feed.
#[tactic(auto, using(crate::proofs::LineLemmas::line_of_words, crate::proofs::LineLemmas::no_words))]
fn entry_in(alloc: Global, line: &[u8]) -> Result<Entry, LineError>
    ensures is { IfOk result (λ e. line.now ≡ join_with_byte 32 (entry_words (recorded_of e))) }
    ensures in_range { IfOk result (λ e. IsRecorded (recorded_of e)) }
    ensures other { IsErrOf result LineError.Other
        → (r : Recorded) → IsRecorded r → line.now ≢ join_with_byte 32 (entry_words r) }
{
    let mut words = Words::of(line);
    entry_of(alloc, &mut words)
}
