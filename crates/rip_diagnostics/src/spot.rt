ghost use Rattle.std.specs.Prelude.{◌≡◌, ◌≤◌, ◌+◌, ◌-◌, false, count_by, length, slice_range, take, drop};
ghost use Rattle.rip_diagnostics.specs.Spots.{begins_character, is_end, line_before, line_behind, line_ends};

/// Where a place of a text stands: the line and the character in it, counted from 1, and the bytes of the text before the
/// line begins and before it ends.
#[derive(Clone, Copy, Debug, PartialEq, Eq)]
pub struct Spot {
    pub line: usize,
    pub column: usize,
    pub start: usize,
    pub end: usize,
}

/// Where the place stands, of a text in UTF-8 without a mark. A place counts bytes from 0.
pub fn spot_of(text: &[u8], place: usize) -> Spot
    requires { place ≤ length text.now }
    ensures line { result.line ≡ 1 + line_ends false (take place text.now) }
    ensures column { result.column ≡ 1 + count_by begins_character
        (drop result.start (take place text.now)) }
    ensures start { result.start ≡ place - line_before (take place text.now) }
    ensures end { result.end ≡ place + line_behind (drop place text.now) }
    ensures within { result.end ≤ length text.now }
{
    let (before, after) = text.split_at(place);
    let start = line_start(before);
    Spot {
        line: 1 + line_ends(before),
        column: 1 + character_count(&before[start..]),
        start,
        end: place + line_count(after),
    }
}

/// The line of the text in which the spot is.
pub fn line_of(text: &[u8], spot: Spot) -> &[u8]
    requires order { spot.start ≤ spot.end }
    requires within { spot.end ≤ length text.now }
    ensures { result.now ≡ slice_range text.now spot.start spot.end }
{
    &text[spot.start..spot.end]
}

/// How many lines end in the text.
fn line_ends(text: &[u8]) -> usize
    ensures value { result ≡ line_ends false text.now }
    ensures bound { result ≤ length text.now }
{
    let mut count = 0;
    let mut behind_cr = false;
    for byte in text {
        if *byte == b'\r' || *byte == b'\n' && !behind_cr {
            count += 1;
        }
        behind_cr = *byte == b'\r';
    }
    count
}

/// How many bytes of the text stand before its last line.
fn line_start(text: &[u8]) -> usize
    ensures value { result ≡ length text.now - line_before text.now }
    ensures bound { result ≤ length text.now }
{
    let mut start = text.len();
    while start > 0 && !is_end(text[start - 1]) {
        start -= 1;
    }
    start
}

/// How many bytes the first line of the text has.
fn line_count(text: &[u8]) -> usize
    ensures value { result ≡ line_behind text.now }
    ensures bound { result ≤ length text.now }
{
    text.iter().take_while(|byte| !is_end(**byte)).count()
}

/// How many characters begin in the text.
fn character_count(text: &[u8]) -> usize
    ensures value { result ≡ count_by begins_character text.now }
    ensures bound { result ≤ length text.now }
{
    text.iter().filter(|byte| begins_character(**byte)).count()
}

/// Whether a line ends at the byte.
fn is_end(byte: u8) -> bool
    ensures { result ≡ is_end byte }
{
    byte == b'\n' || byte == b'\r'
}

/// Whether the byte begins a character (RFC 3629 section 3).
pub fn begins_character(byte: u8) -> bool
    ensures { result ≡ begins_character byte }
{
    byte < 0x80 || byte >= 0xC0
}
