ghost use Rattle.std.specs.Prelude.{◌≡◌, ◌<◌, ◌≤◌, ◌+◌, ◌^◌, ◌==◌, ◌&&◌, ◌++◌, false, IfOk, IfErr, OnOk, length};
ghost use Rattle.std.specs.Str.{IsUtf8};
ghost use Rattle.std.specs.Str.Lossy.{utf8_valid_len};
ghost use Rattle.rip_markup.specs.Input.{mark_count, unmarked, lines, unit_width, bytes_before, line_units, IsTextOf, IsTextRefusal};

use crate::ascii::{CARRIAGE_RETURN, LINE_FEED};
use crate::refusal::PageRefusal;
use rip_base::{List, NoMemory, PageKind, TextError, Units};
use std::alloc::Global;
use std::str;

/// The text of a page.
#[derive(Debug, Drop)]
pub struct PageText {
    /// How many bytes stand before it, as a mark of UTF-8.
    pub mark: usize,
    /// Its units as the page spells it.
    pub raw: Units,
    /// Its units with lines that end in LF.
    pub units: Units,
}

/// The text of a page (HTML 13.2.3). A page whose places 32 bits cannot count is answered with want of memory.
pub fn read_text(alloc: Global, bytes: &[u8]) -> Result<PageText, PageRefusal>
    ensures found { IfOk result (IsTextOf bytes.now) }
    ensures counted { OnOk result (length bytes.now < 2 ^ 32) }
    ensures only { (text : PageText) → IsTextOf bytes.now text → IfOk result (λ made. made ≡ text) }
    ensures mark { IfOk result (λ text. text.mark ≤ 3) }
    ensures refused { IfErr result (IsTextRefusal bytes.now) }
{
    if bytes.len() > u32::MAX as usize {
        return Err(PageRefusal::Memory);
    }
    let mark = mark_count(bytes);
    let (_, spelled) = bytes.split_at(mark);
    match Units::from_utf8(alloc, spelled) {
        Ok(raw) => {
            let units = lines(alloc, raw.as_slice())?;
            Ok(PageText { mark, raw, units })
        }
        Err(TextError::NotUtf8) => Err(not_utf8(mark, spelled)),
        Err(_) => Err(PageRefusal::Memory),
    }
}

/// How many bytes of a mark of UTF-8 the bytes begin with (RFC 3629 section 6).
fn mark_count(bytes: &[u8]) -> usize
    ensures value { result ≡ mark_count bytes.now }
    ensures bound { result ≤ length bytes.now }
    ensures small { result ≤ 3 }
{
    match bytes {
        [0xEF, 0xBB, 0xBF, ..] => 3,
        _ => 0,
    }
}

/// The first byte that belongs to no character.
fn not_utf8(mark: usize, spelled: &[u8]) -> PageRefusal
    requires not { ¬ (IsUtf8 spelled.now) }
    requires small { mark + length spelled.now < 2 ^ 32 }
    ensures { result ≡ PageRefusal.At (mark + utf8_valid_len spelled.now) PageKind.NotUtf8 }
{
    match str::from_utf8(spelled) {
        Err(error) => PageRefusal::At {
            place: (mark + error.valid_up_to()) as u32,
            kind: PageKind::NotUtf8,
        },
        Ok(_) => unreachable!(),
    }
}

/// The units with lines that end in LF (HTML 13.2.3.5).
fn lines(alloc: Global, raw: &[u16]) -> Result<Units, NoMemory>
    ensures { IfOk result (λ units. units ≡ lines false raw.now) }
{
    let mut out = Vec::with_capacity(alloc, raw.len())?;
    let mut behind_cr = false;
    for unit in raw {
        push_line(&mut out, behind_cr, *unit)?;
        behind_cr = *unit == CARRIAGE_RETURN;
    }
    Ok(List::from_vec(out))
}

/// Puts a unit behind those of `out`, as the end of a line if it ends one.
fn push_line(out: &mut Vec<u16>, behind_cr: bool, unit: u16) -> Result<(), NoMemory>
    ensures { OnOk result (out.new.items ≡ out.old.items ++ line_units behind_cr unit) }
{
    if unit == CARRIAGE_RETURN {
        out.push(LINE_FEED)?;
    } else if !is_dropped(behind_cr, unit) {
        out.push(unit)?;
    }
    Ok(())
}

/// Whether the unit is the LF of a line end whose CR stands before it.
fn is_dropped(behind_cr: bool, unit: u16) -> bool
    ensures { result ≡ (behind_cr && (unit == 10)) }
{
    behind_cr && unit == LINE_FEED
}

/// How many bytes of the page stand before a place in its text, whose lines end in LF.
pub fn byte_place(text: &PageText, place: usize) -> usize
    requires { text.now.mark ≤ 3 }
    ensures { result ≡ text.now.mark + bytes_before false text.now.raw place }
{
    let mut count = text.mark;
    let mut left = place;
    let mut behind_cr = false;
    for unit in text.raw.as_slice() {
        if is_dropped(behind_cr, *unit) {
            count += 1;
            behind_cr = false;
        } else if left == 0 {
            return count;
        } else {
            count += unit_width(*unit);
            left -= 1;
            behind_cr = *unit == CARRIAGE_RETURN;
        }
    }
    count
}

/// How many bytes a unit has in UTF-8 (RFC 3629 section 3).
fn unit_width(unit: u16) -> usize
    ensures value { result ≡ unit_width unit }
    ensures bound { result ≤ 3 }
{
    match unit {
        0..=0x7F => 1,
        0x80..=0x7FF | 0xD800..=0xDFFF => 2,
        _ => 3,
    }
}
