/// Whether a name may hold the byte.
pub fn is_name_byte(byte: u8) -> bool {
    matches!(byte, b'a'..=b'z' | b'A'..=b'Z' | b'0'..=b'9' | b'$' | b'_')
}

/// Whether the byte is space.
pub fn is_blank(byte: u8) -> bool {
    matches!(byte, b' ' | b'\t' | b'\n' | b'\r' | 0x0B | 0x0C)
}

/// The name with which the bytes begin, or nothing.
pub fn name_in(bytes: &[u8]) -> &[u8] {
    let count = bytes.iter().take_while(|byte| is_name_byte(**byte)).count();
    front(bytes, count)
}

/// The name of a tag or an attribute with which the bytes begin, or nothing.
pub fn tag_name_in(bytes: &[u8]) -> &[u8] {
    let count = bytes.iter().take_while(|byte| is_tag_byte(**byte)).count();
    front(bytes, count)
}

/// Whether the name of a tag or an attribute may hold the byte.
fn is_tag_byte(byte: u8) -> bool {
    !is_blank(byte) && !matches!(byte, b'=' | b'>' | b'/' | b'<' | b'"' | b'\'')
}

/// The name, the text in quotes or the character with which the bytes begin.
pub fn word_in(bytes: &[u8]) -> &[u8] {
    let name = name_in(bytes);
    match bytes {
        [quote @ (b'"' | b'\''), rest @ ..] => {
            let count = rest.iter().take_while(|byte| *byte != quote).count();
            front(bytes, count.saturating_add(2))
        }
        [0xC0..=0xFF, rest @ ..] => {
            let count = rest.iter().take_while(|byte| is_inner(**byte)).count();
            front(bytes, count.saturating_add(1))
        }
        _ if name.is_empty() => front(bytes, 1),
        _ => name,
    }
}

/// Whether the byte stands within a character (RFC 3629 section 3).
fn is_inner(byte: u8) -> bool {
    matches!(byte, 0x80..=0xBF)
}

/// The bytes up to this place, or as many as there are.
pub fn front(bytes: &[u8], count: usize) -> &[u8] {
    match bytes.get(..count) {
        Some(front) => front,
        None => bytes,
    }
}

/// The bytes from this place on, if there are any.
pub fn rest(bytes: &[u8], place: usize) -> &[u8] {
    match bytes.get(place..) {
        Some(rest) => rest,
        None => b"",
    }
}

/// The bytes behind the space with which they begin.
pub fn behind_blank(bytes: &[u8]) -> &[u8] {
    rest(
        bytes,
        bytes.iter().take_while(|byte| is_blank(**byte)).count(),
    )
}

/// The bytes without the space at their end.
pub fn without_blank(bytes: &[u8]) -> &[u8] {
    let count = bytes
        .iter()
        .rev()
        .take_while(|byte| is_blank(**byte))
        .count();
    front(bytes, bytes.len().saturating_sub(count))
}

/// The bytes without the name at their end.
pub fn without_name(bytes: &[u8]) -> &[u8] {
    let count = bytes
        .iter()
        .rev()
        .take_while(|byte| is_name_byte(**byte))
        .count();
    front(bytes, bytes.len().saturating_sub(count))
}

/// The last byte that is no space.
pub fn last_byte(bytes: &[u8]) -> Option<u8> {
    without_blank(bytes).last().copied()
}

/// The name at the end of the bytes, before space; or nothing.
pub fn last_word(bytes: &[u8]) -> &[u8] {
    let bytes = without_blank(bytes);
    rest(bytes, without_name(bytes).len())
}

/// The bytes in small letters are those of an ASCII text.
pub fn is_in_small(bytes: &[u8], small: &[u8]) -> bool {
    bytes.len() == small.len()
        && bytes
            .iter()
            .zip(small)
            .all(|(byte, letter)| byte.to_ascii_lowercase() == *letter)
}
