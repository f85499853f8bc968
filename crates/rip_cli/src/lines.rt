ghost use Rattle.std.specs.Prelude.{◌≡◌, ◌++◌, IfOk, OnOk, codes, decimal};
ghost use Rattle.rip_cli.specs.Lines.{count_line, gestures_line, manifest_line, page_line, script_line, too_long_line, trace_line};

use rip_base::{Bytes, NoMemory, Writer};
use std::alloc::Global;

/// What `check` says of an application whose page has so many nodes and scripts.
pub fn count_line(alloc: Global, nodes: u32, scripts: u32) -> Result<Bytes, NoMemory>
    ensures { IfOk result (λ line. line ≡ count_line nodes scripts) }
{
    let mut out = Writer::new(alloc);
    out.text(b"ok nodes ")?;
    out.number(u64::from(nodes))?;
    out.text(b" scripts ")?;
    out.number(u64::from(scripts))?;
    out.text(b"\n")?;
    Ok(out.into_bytes())
}

/// The line for a file that is too long, by its word.
pub fn too_long_line(alloc: Global, file: &[u8]) -> Result<Bytes, NoMemory>
    ensures { IfOk result (λ line. line ≡ too_long_line file.now) }
{
    let mut out = Writer::new(alloc);
    out.text(b"refused ")?;
    out.text(file)?;
    out.text(b" TooLong\n")?;
    Ok(out.into_bytes())
}

/// The line for a page: what is wrong, and the place in bytes.
pub fn page_line(alloc: Global, kind: &[u8], place: u32) -> Result<Bytes, NoMemory>
    ensures { IfOk result (λ line. line ≡ page_line kind.now place) }
{
    let mut out = Writer::new(alloc);
    out.text(b"refused page ")?;
    out.text(kind)?;
    out.text(b" ")?;
    out.number(u64::from(place))?;
    out.text(b"\n")?;
    Ok(out.into_bytes())
}

/// The line for a manifest: what is wrong.
pub fn manifest_line(alloc: Global, kind: &[u8]) -> Result<Bytes, NoMemory>
    ensures { IfOk result (λ line. line ≡ manifest_line kind.now) }
{
    let mut out = Writer::new(alloc);
    out.text(b"refused app ")?;
    out.text(kind)?;
    out.text(b"\n")?;
    Ok(out.into_bytes())
}

/// The line for a script: its number from 1, what is wrong, and the place in units.
pub fn script_line(alloc: Global, number: u32, kind: &[u8], place: u32) -> Result<Bytes, NoMemory>
    ensures { IfOk result (λ line. line ≡ script_line number kind.now place) }
{
    let mut out = Writer::new(alloc);
    out.text(b"refused script ")?;
    out.number(u64::from(number))?;
    out.text(b" ")?;
    out.text(kind)?;
    out.text(b" ")?;
    out.number(u64::from(place))?;
    out.text(b"\n")?;
    Ok(out.into_bytes())
}

/// The line for a trace: its first line that is none, counted from 1.
pub fn trace_line(alloc: Global, line: u64) -> Result<Bytes, NoMemory>
    ensures { IfOk result (λ text. text ≡ trace_line line) }
{
    let mut out = Writer::new(alloc);
    out.text(b"refused trace ")?;
    out.number(line)?;
    out.text(b"\n")?;
    Ok(out.into_bytes())
}

/// The line for gestures: the first line that is none, or whose gesture is not legal at its place, counted from 1.
pub fn gestures_line(alloc: Global, line: u64) -> Result<Bytes, NoMemory>
    ensures { IfOk result (λ text. text ≡ gestures_line line) }
{
    let mut out = Writer::new(alloc);
    out.text(b"refused gestures ")?;
    out.number(line)?;
    out.text(b"\n")?;
    Ok(out.into_bytes())
}
