//! The bytes of a request that a line stands for.
ghost use Rattle.std.specs.Prelude.{◌≡◌, ◌++◌, ◌*◌, ◌-◌, [], OnOk, IfOk};
ghost use Rattle.uuid.specs.Text.{hyphenated_text, lower};
ghost use Rattle.rip_trace.specs.Requests.{identifier, drawn, identifier_of, line, no_body, fields_of, with_body, request};
ghost use Rattle.rip_trace.specs.Shown.{asked_of};

use crate::say::Asked;
use rip_base::{Bytes, NoMemory, Writer};
use std::alloc::Global;
use uuid::{Builder, Uuid};

/// The identifier of version 4 (RFC 9562, 5.4) whose 16 bytes are two words, big-endian, with version and variant set.
pub fn identifier(first: u64, second: u64) -> Uuid
    ensures { result ≡ identifier first second }
{
    let mut bytes = [0u8; 16];
    bytes[..8].copy_from_slice(&first.to_be_bytes());
    bytes[8..].copy_from_slice(&second.to_be_bytes());
    Builder::from_random_bytes(bytes).into_uuid()
}

/// The word that is drawn at this place, counted from 1.
fn drawn(words: &[u64], place: u64) -> u64
    ensures { result ≡ drawn words.now place }
{
    match words.get(place.saturating_sub(1) as usize) {
        Some(word) => *word,
        None => place,
    }
}

/// The identifier of a session.
fn identifier_of(words: &[u64], session: u32) -> Uuid
    ensures { result ≡ identifier_of words.now session }
{
    let last = 3 * u64::from(session);
    identifier(
        drawn(words, last.saturating_sub(2)),
        drawn(words, last.saturating_sub(1)),
    )
}

/// The bytes of the request.
#[tactic(auto, unfolding(crate::specs::Requests::request))]
pub(crate) fn write_request(
    alloc: Global,
    words: &[u64],
    asked: &Asked<'_>,
) -> Result<Bytes, NoMemory>
    ensures { IfOk result (λ bytes. bytes ≡ request words.now (asked_of asked.now)) }
{
    let mut out = Writer::new(alloc);
    match asked {
        Asked::Page => {
            out.text(b"GET /")?;
            end_without_body(&mut out)?;
        }
        Asked::Report { session, body } => {
            out.text(b"POST /e/")?;
            next_identifier(&mut out, identifier_of(words, *session))?;
            end_with_body(&mut out, body)?;
        }
        Asked::Quit { session } => {
            out.text(b"POST /q/")?;
            next_identifier(&mut out, identifier_of(words, *session))?;
            end_with_body(&mut out, b"")?;
        }
    }
    Ok(out.into_bytes())
}

fn next_identifier(out: &mut Writer, id: Uuid) -> Result<(), NoMemory>
    ensures { OnOk result (out.new ≡ out.old ++ hyphenated_text lower id) }
{
    let mut room = [0u8; 36];
    out.text(id.hyphenated().encode_lower(&mut room).as_bytes())
}

/// Writes what stands behind the path, without a body.
fn end_without_body(out: &mut Writer) -> Result<(), NoMemory>
    ensures { OnOk result (out.new ≡ out.old ++ no_body) }
{
    out.text(b" HTTP/1.1\r\nHost: a\r\n\r\n")
}

/// Writes what stands behind the path, with this body.
fn end_with_body(out: &mut Writer, body: &[u8]) -> Result<(), NoMemory>
    ensures { OnOk result (out.new ≡ out.old ++ with_body body.now) }
{
    end_head(out, body.len() as u64)?;
    out.text(body)
}

/// Writes what stands between the path and a body of so many bytes.
fn end_head(out: &mut Writer, size: u64) -> Result<(), NoMemory>
    ensures { OnOk result (out.new ≡ out.old ++ fields_of size) }
{
    out.text(b" HTTP/1.1\r\nHost: a\r\nContent-Length: ")?;
    out.number(size)?;
    out.text(b"\r\n\r\n")
}
