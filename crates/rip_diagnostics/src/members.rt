//! Where the members of a manifest stand in its text.

use crate::word::{behind_blank, front, rest};

/// A part of a text: the place of its first byte, and how many bytes it has.
#[derive(Clone, Copy, Debug, PartialEq, Eq)]
pub struct Part {
    pub place: usize,
    pub count: usize,
}

/// What a scan of a JSON text has seen.
#[derive(Clone, Copy)]
struct Scan {
    depth: usize,
    string: Option<usize>,
    is_escaped: bool,
    last: Part,
    is_within: bool,
}

/// The name of a member, in a text that is JSON: of the whole value where `inner` is none, else of the member that `outer`
/// names. Of a repeated member the last counts.
pub fn member_at(bytes: &[u8], outer: &[u8], inner: Option<&[u8]>) -> Option<Part> {
    let mut scan = Scan {
        depth: 0,
        string: None,
        is_escaped: false,
        last: Part { place: 0, count: 0 },
        is_within: false,
    };
    let mut found = None;
    for (place, byte) in bytes.iter().enumerate() {
        if let Some(start) = scan.string {
            scan = within_string(scan, start, place, *byte);
        } else {
            if *byte == b':' && is_wanted(bytes, scan, outer, inner) {
                found = Some(scan.last);
            }
            scan = outside_string(bytes, scan, place, *byte, outer);
        }
    }
    found
}

/// Goes behind a byte within a string.
fn within_string(scan: Scan, start: usize, place: usize, byte: u8) -> Scan {
    if scan.is_escaped {
        return Scan {
            is_escaped: false,
            ..scan
        };
    }
    match byte {
        b'\\' => Scan {
            is_escaped: true,
            ..scan
        },
        b'"' => Scan {
            string: None,
            last: Part {
                place: start,
                count: place.saturating_sub(start).saturating_add(1),
            },
            ..scan
        },
        _ => scan,
    }
}

/// Goes behind a byte outside strings.
fn outside_string(bytes: &[u8], scan: Scan, place: usize, byte: u8, outer: &[u8]) -> Scan {
    match byte {
        b'"' => Scan {
            string: Some(place),
            ..scan
        },
        b'{' | b'[' => Scan {
            depth: scan.depth.saturating_add(1),
            ..scan
        },
        b'}' | b']' => Scan {
            depth: scan.depth.saturating_sub(1),
            ..scan
        },
        b':' if scan.depth == 1 => Scan {
            is_within: is_named(bytes, scan.last, outer),
            ..scan
        },
        _ => scan,
    }
}

/// Whether a member that is looked for begins at the colon.
fn is_wanted(bytes: &[u8], scan: Scan, outer: &[u8], inner: Option<&[u8]>) -> bool {
    match inner {
        None => scan.depth == 1 && is_named(bytes, scan.last, outer),
        Some(name) => scan.depth == 2 && scan.is_within && is_named(bytes, scan.last, name),
    }
}

/// Whether the string at the part is this name.
fn is_named(bytes: &[u8], part: Part, name: &[u8]) -> bool {
    match front(rest(bytes, part.place), part.count) {
        [b'"', inside @ .., b'"'] => inside == name,
        _ => false,
    }
}

/// The value behind the name of a member.
pub fn value_of(bytes: &[u8], name: Part) -> Part {
    let colon = behind_blank(rest(bytes, name.place.saturating_add(name.count)));
    let value = behind_blank(rest(colon, 1));
    Part {
        place: bytes.len().saturating_sub(value.len()),
        count: value_end(value),
    }
}

/// How many bytes a value has that the bytes begin with.
pub fn value_end(value: &[u8]) -> usize {
    let mut depth = 0usize;
    let mut is_string = false;
    let mut is_escaped = false;
    for (place, byte) in value.iter().enumerate() {
        if is_string {
            if is_escaped {
                is_escaped = false;
            } else {
                is_escaped = *byte == b'\\';
                is_string = *byte != b'"';
            }
        } else {
            match *byte {
                b'"' => is_string = true,
                b'{' | b'[' => depth = depth.saturating_add(1),
                b'}' | b']' | b',' if depth == 0 => return place,
                b'}' | b']' => depth = depth.saturating_sub(1),
                b' ' | b'\t' | b'\n' | b'\r' if depth == 0 => return place,
                _ => {}
            }
        }
    }
    value.len()
}

/// The place of the first number that is not whole or is past the greatest, in a text that is JSON.
pub fn number_at(bytes: &[u8]) -> usize {
    let mut is_string = false;
    let mut is_escaped = false;
    let mut start = 0usize;
    let mut is_number = false;
    for (place, byte) in bytes.iter().enumerate() {
        if is_string {
            is_string = is_escaped || *byte != b'"';
            is_escaped = !is_escaped && *byte == b'\\';
        } else if matches!(*byte, b'0'..=b'9' | b'-') {
            if !is_number {
                start = place;
            }
            is_number = true;
            if is_too_large(front(
                rest(bytes, start),
                place.saturating_sub(start).saturating_add(1),
            )) {
                return start;
            }
        } else {
            if is_number && matches!(*byte, b'.' | b'e' | b'E') {
                return start;
            }
            is_number = false;
            is_string = *byte == b'"';
        }
    }
    0
}

/// Whether the digits are those of a number past 9007199254740991.
fn is_too_large(digits: &[u8]) -> bool {
    let digits = match digits {
        [b'-', digits @ ..] => digits,
        _ => digits,
    };
    digits.len() > 16 || digits.len() == 16 && digits > b"9007199254740991".as_slice()
}

/// The place at which arrays and objects nest more than 8 deep.
pub fn depth_at(bytes: &[u8]) -> usize {
    let mut is_string = false;
    let mut is_escaped = false;
    let mut depth = 0usize;
    for (place, byte) in bytes.iter().enumerate() {
        if is_string {
            is_string = is_escaped || *byte != b'"';
            is_escaped = !is_escaped && *byte == b'\\';
        } else {
            match *byte {
                b'"' => is_string = true,
                b'{' | b'[' if depth >= 8 => return place,
                b'{' | b'[' => depth = depth.saturating_add(1),
                b'}' | b']' => depth = depth.saturating_sub(1),
                _ => {}
            }
        }
    }
    0
}
