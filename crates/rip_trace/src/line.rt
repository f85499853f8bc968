//! The lines of a trace, each read of its bytes.
ghost use Rattle.std.specs.Prelude.{◌≡◌, ◌≢◌, ◌∷◌, ◌++◌, ◌<◌, ◌^◌, ℕ, List, codes, decimal, Some, None, IsNone, IfSome, IfOk, IsErrOf};
ghost use Rattle.rip_trace.specs.Lines.{Asked as Request, Line as AnyLine, moment, word, opens, sends, goes, says};
ghost use Rattle.rip_trace.specs.Shown.{line_of};
ghost use Rattle.rip_trace.specs.Spelling.{IsSpelled, IsWord, IsPiece, IsAsked};

use crate::say::{Asked, asked_in};
use crate::text::{behind, number_then};
use hex::FromHexError;
use rip_base::Bytes;
use rip_outer::MAX_PIECE;
use rip_wire::LineError;
use rip_words::numerals::read_number;
use std::alloc::Global;

/// The last moment, in milliseconds.
const LAST_MOMENT: u64 = 9_007_199_254_740_991;

/// A line of a trace.
#[derive(Drop)]
pub(crate) enum Line<'a> {
    Comment(&'a [u8]),
    Moment(u64),
    Word(u64),
    Opened(u64),
    Sent(u64, Bytes),
    Gone(u64),
    Quiet,
    Said(u64, Asked<'a>),
}

/// The line that the bytes spell.
#[tactic(auto, using(crate::proofs::LineLemmas::only_moment, crate::proofs::LineLemmas::only_word, crate::proofs::LineLemmas::only_opens, crate::proofs::LineLemmas::only_sends, crate::proofs::LineLemmas::only_goes, crate::proofs::LineLemmas::only_says, crate::proofs::LineLemmas::no_line))]
pub(crate) fn read_line(alloc: Global, bytes: &[u8]) -> Result<Line<'_>, LineError>
    ensures is { IfOk result (λ l. IsSpelled bytes.now (line_of l)) }
    ensures other { IsErrOf result LineError.Other → (l : AnyLine) → ¬ IsSpelled bytes.now l }
{
    if let Some(text) = behind(bytes, b"#") {
        Ok(Line::Comment(text))
    } else if let Some(rest) = behind(bytes, b"time ") {
        or_other(moment_in(rest))
    } else if let Some(digits) = behind(bytes, b"word ") {
        or_other(word_line(digits))
    } else if let Some(rest) = behind(bytes, b"open ") {
        or_other(opening_in(rest))
    } else if let Some(rest) = behind(bytes, b"send ") {
        piece_in(alloc, rest)
    } else if let Some(rest) = behind(bytes, b"gone ") {
        or_other(going_in(rest))
    } else if let Some(rest) = behind(bytes, b"say ") {
        or_other(saying_in(rest))
    } else if bytes == b"quiet".as_slice() {
        Ok(Line::Quiet)
    } else {
        Err(LineError::Other)
    }
}

/// The line, if there is one.
fn or_other(line: Option<Line<'_>>) -> Result<Line<'_>, LineError>
    ensures ok { IfOk result (λ l. line.entry ≡ Some l) }
    ensures err { IsErrOf result LineError.Other → line.entry ≡ None }
{
    line.ok_or(LineError::Other)
}

/// The word of a line `word H`.
#[tactic(auto, using(crate::proofs::LineLemmas::other_bytes, crate::proofs::LineLemmas::other_digits))]
pub(crate) fn word_told(bytes: &[u8]) -> Option<u64>
    ensures is { IfSome result (λ w. IsSpelled bytes.now (word w)) }
    ensures none { IsNone result → (w : ℕ) → ¬ IsSpelled bytes.now (word w) }
{
    word_in(behind(bytes, b"word ")?)
}

/// A moment below 2^53.
fn moment_in(rest: &[u8]) -> Option<Line<'_>>
    ensures is { IfSome result (λ l. IsSpelled (codes "time " ++ rest.now) (line_of l)) }
    ensures none { IsNone result → (m : ℕ) → m < 2 ^ 53 → rest.now ≢ decimal m }
{
    let moment = read_number(rest)?;
    if moment > LAST_MOMENT {
        return None;
    }
    Some(Line::Moment(moment))
}

fn word_line(digits: &[u8]) -> Option<Line<'_>>
    ensures is { IfSome result (λ l. IsSpelled (codes "word " ++ digits.now) (line_of l)) }
    ensures none { IsNone result → (w : ℕ) → ¬ IsWord digits.now w }
{
    Some(Line::Word(word_in(digits)?))
}

/// The word that 16 hexadecimal digits are.
fn word_in(digits: &[u8]) -> Option<u64>
    ensures is { IfSome result (λ w. IsWord digits.now w) }
    ensures none { IsNone result → (w : ℕ) → ¬ IsWord digits.now w }
{
    let mut octets = [0u8; 8];
    match hex::decode_to_slice(digits, &mut octets) {
        Ok(()) => Some(u64::from_be_bytes(octets)),
        Err(_) => None,
    }
}

fn opening_in(rest: &[u8]) -> Option<Line<'_>>
    ensures is { IfSome result (λ l. IsSpelled (codes "open " ++ rest.now) (line_of l)) }
    ensures none { IsNone result → (c : ℕ) → c < 2 ^ 64 → rest.now ≢ decimal c }
{
    Some(Line::Opened(read_number(rest)?))
}

fn going_in(rest: &[u8]) -> Option<Line<'_>>
    ensures is { IfSome result (λ l. IsSpelled (codes "gone " ++ rest.now) (line_of l)) }
    ensures none { IsNone result → (c : ℕ) → c < 2 ^ 64 → rest.now ≢ decimal c }
{
    Some(Line::Gone(read_number(rest)?))
}

/// A connection and a piece: `C HEX`.
fn piece_in(alloc: Global, rest: &[u8]) -> Result<Line<'_>, LineError>
    ensures is { IfOk result (λ l. IsSpelled (codes "send " ++ rest.now) (line_of l)) }
    ensures other { IsErrOf result LineError.Other
        → (c : ℕ) (digits piece : List ℕ) → c < 2 ^ 64 → IsPiece digits piece
        → rest.now ≢ decimal c ++ 32 ∷ digits }
{
    let Some((connection, digits)) = number_then(rest) else {
        return Err(LineError::Other);
    };
    Ok(Line::Sent(connection, bytes_in(alloc, digits)?))
}

/// The 1 to 4,096 bytes that hexadecimal digits are.
fn bytes_in(alloc: Global, digits: &[u8]) -> Result<Bytes, LineError>
    ensures is { IfOk result (λ piece. IsPiece digits.now piece) }
    ensures other { IsErrOf result LineError.Other → (piece : List ℕ) → ¬ IsPiece digits.now piece }
{
    match hex::decode(alloc, digits) {
        Ok(bytes) if 1 <= bytes.len() && bytes.len() <= MAX_PIECE => Ok(Bytes::from_vec(bytes)),
        Err(FromHexError::OutOfMemory) => Err(LineError::Memory),
        Ok(_) | Err(_) => Err(LineError::Other),
    }
}

/// A connection and what is asked on it: `C get`, `C e S BODY` or `C q S`.
fn saying_in(rest: &[u8]) -> Option<Line<'_>>
    ensures is { IfSome result (λ l. IsSpelled (codes "say " ++ rest.now) (line_of l)) }
    ensures none { IsNone result
        → (c : ℕ) (asks : List ℕ) (a : Request) → c < 2 ^ 64 → IsAsked asks a
        → rest.now ≢ decimal c ++ 32 ∷ asks }
{
    let (connection, asks) = number_then(rest)?;
    Some(Line::Said(connection, asked_in(asks)?))
}
