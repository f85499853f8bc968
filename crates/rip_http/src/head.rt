ghost use Rattle.std.specs.Prelude.{◌≡◌, ◌≢◌, ℕ, ◌<◌, ◌≤◌, length, slice_index, take, Some};
ghost use Rattle.rip_http.specs.Heads.{step, after, is_line_byte, blank};
ghost use Rattle.rip_http.specs.Stages.{IsSought};
ghost use Rattle.rip_http.specs.declared.head.Scan.TheVariants.{Before};

use memchr::memchr;

/// How far the search for a head's end has come.
#[derive(Clone, Copy)]
pub(crate) enum Scan {
    /// Only CR and LF so far.
    Before,
    Inside,
    /// Behind an LF.
    AfterFeed,
    /// Behind LF CR.
    AfterReturn,
}

/// What a search for a head's end came to.
#[derive(Clone, Copy)]
pub(crate) enum Sought {
    /// The end may come with more bytes.
    Open(Scan),
    /// The head ends behind so many bytes.
    Ended(usize),
}

impl Scan {
    /// The state behind one more byte, or none where that byte ends the head.
    pub(crate) fn step(self, b: u8) -> Option<Scan>
        ensures { result ≡ step self b }
    {
        match (self, b) {
            (Scan::Before, b'\r' | b'\n') => Some(Scan::Before),
            (Scan::Inside, b'\n') => Some(Scan::AfterFeed),
            (Scan::AfterFeed | Scan::AfterReturn, b'\n') => None,
            (Scan::AfterFeed, b'\r') => Some(Scan::AfterReturn),
            _ => Some(Scan::Inside),
        }
    }
}

/// How many bytes stand before the first LF, or how many there are.
fn line_length(bytes: &[u8]) -> usize
    ensures within { result ≤ length bytes.now }
    ensures inside { (k : ℕ) → k < result → slice_index bytes.now k ≢ 10 }
{
    match memchr(b'\n', bytes) {
        Some(k) => k,
        None => bytes.len(),
    }
}

/// Behind how many bytes a search that has looked at the first `from` stands as it does now: within a line, at its LF.
fn skip_line(bytes: &[u8], from: usize, scan: Scan) -> usize
    requires within { from ≤ length bytes.now }
    requires looked { after Before (take from bytes.now) ≡ Some scan }
    ensures looked { after Before (take result bytes.now) ≡ Some scan }
    ensures within { result ≤ length bytes.now }
    ensures on { from ≤ result }
{
    match scan {
        Scan::Inside => from + line_length(&bytes[from..]),
        Scan::Before | Scan::AfterFeed | Scan::AfterReturn => from,
    }
}

/// Goes on with the search behind the first `from` bytes.
pub(crate) fn seek_end(bytes: &[u8], from: usize, scan: Scan) -> Sought
    requires within { from ≤ length bytes.now }
    requires looked { after Before (take from bytes.now) ≡ Some scan }
    ensures { IsSought bytes.now result }
{
    let mut scan = scan;
    let mut i = skip_line(bytes, from, scan);
    while i < bytes.len() {
        match scan.step(bytes[i]) {
            Some(next) => {
                scan = next;
                i = skip_line(bytes, i + 1, next);
            }
            None => return Sought::Ended(i + 1),
        }
    }
    Sought::Open(scan)
}

fn is_line_byte(b: u8) -> bool
    ensures { result ≡ is_line_byte b }
{
    b == b'\r' || b == b'\n'
}

/// How many CR and LF stand at the front.
pub(crate) fn count_blank(bytes: &[u8]) -> usize
    ensures value { result ≡ blank bytes.now }
    ensures within { result ≤ length bytes.now }
{
    let mut left = bytes;
    while let [first, rest @ ..] = left
        && is_line_byte(*first)
    {
        left = rest;
    }
    bytes.len() - left.len()
}
