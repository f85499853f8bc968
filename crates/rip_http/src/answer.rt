ghost use Rattle.std.specs.Prelude.{◌≡◌, [], ◌∷◌, ◌++◌, OnOk, IfOk, codes, decimal};
ghost use Rattle.rip_http.specs.Answers.{field, line, status_line, content_type, allow_line, identifier_text, opened_lines, opening_lines, length_line, close_line, body_of, answer_text};

use crate::request::Method;
use itoa::Buffer;
use rip_base::{Bytes, NoMemory};
use std::alloc::Global;
use uuid::Uuid;

/// Room for the head of most answers, in bytes.
const HEAD_ROOM: usize = 320;

/// A session that was opened.
#[derive(Clone, Copy, Debug)]
pub struct Opening {
    pub id: Uuid,
    pub seed: u32,
    pub time: u64,
}

/// An answer to a request, or to a head that is refused.
#[derive(Debug, Drop)]
pub struct HttpAnswer {
    /// The status code.
    pub code: u16,
    /// The body is the page; else it is JSON.
    pub html: bool,
    /// The method that a 405 names.
    pub allow: Option<Method>,
    pub opening: Option<Opening>,
    pub body: Bytes,
    /// The connection is shut behind the answer.
    pub close: bool,
    /// Neither Content-Length nor the body is written: the answer is to HEAD.
    pub bare: bool,
}

fn write(out: &mut Vec<u8>, text: &[u8]) -> Result<(), NoMemory>
    ensures { OnOk result (out.new.items ≡ out.old.items ++ text.now) }
{
    out.extend_from_slice(text)?;
    Ok(())
}

/// Writes a number as its decimal numeral.
fn write_number(out: &mut Vec<u8>, n: u64) -> Result<(), NoMemory>
    ensures { OnOk result (out.new.items ≡ out.old.items ++ decimal n) }
{
    let mut buffer = Buffer::new();
    write(out, buffer.format(n).as_bytes())
}

/// Writes the status line.
fn write_status(out: &mut Vec<u8>, code: u16) -> Result<(), NoMemory>
    ensures { OnOk result (out.new.items ≡ out.old.items ++ status_line code) }
{
    match code {
        200 => write(out, b"HTTP/1.1 200 OK\r\n"),
        400 => write(out, b"HTTP/1.1 400 Bad Request\r\n"),
        404 => write(out, b"HTTP/1.1 404 Not Found\r\n"),
        405 => write(out, b"HTTP/1.1 405 Method Not Allowed\r\n"),
        409 => write(out, b"HTTP/1.1 409 Conflict\r\n"),
        410 => write(out, b"HTTP/1.1 410 Gone\r\n"),
        411 => write(out, b"HTTP/1.1 411 Length Required\r\n"),
        413 => write(out, b"HTTP/1.1 413 Content Too Large\r\n"),
        431 => write(out, b"HTTP/1.1 431 Request Header Fields Too Large\r\n"),
        500 => write(out, b"HTTP/1.1 500 Internal Server Error\r\n"),
        501 => write(out, b"HTTP/1.1 501 Not Implemented\r\n"),
        503 => write(out, b"HTTP/1.1 503 Service Unavailable\r\n"),
        _ => write_other_status(out, code),
    }
}

/// Writes the status line of a code that is never sent, which has no phrase.
fn write_other_status(out: &mut Vec<u8>, code: u16) -> Result<(), NoMemory>
    ensures { OnOk result (out.new.items
        ≡ out.old.items ++ line (codes "HTTP/1.1 " ++ decimal code ++ codes " ")) }
{
    write(out, b"HTTP/1.1 ")?;
    write_number(out, u64::from(code))?;
    write(out, b" \r\n")
}

/// Writes a field whose value is a text.
fn write_field(out: &mut Vec<u8>, name: &[u8], value: &[u8]) -> Result<(), NoMemory>
    ensures { OnOk result (out.new.items ≡ out.old.items ++ field name.now value.now) }
{
    write(out, name)?;
    write(out, b": ")?;
    write(out, value)?;
    write(out, b"\r\n")
}

/// Writes a field whose value is a number.
fn write_number_field(out: &mut Vec<u8>, name: &[u8], n: u64) -> Result<(), NoMemory>
    ensures { OnOk result (out.new.items ≡ out.old.items ++ field name.now (decimal n)) }
{
    let mut buffer = Buffer::new();
    write_field(out, name, buffer.format(n).as_bytes())
}

/// Writes the type of the body.
fn write_type(out: &mut Vec<u8>, html: bool) -> Result<(), NoMemory>
    ensures { OnOk result
        (out.new.items ≡ out.old.items ++ field (codes "Content-Type") (content_type html)) }
{
    if html {
        write(out, b"Content-Type: text/html; charset=utf-8\r\n")
    } else {
        write(out, b"Content-Type: application/json\r\n")
    }
}

/// Writes the method that the route takes, if the answer names it.
fn write_allow(out: &mut Vec<u8>, allow: Option<Method>) -> Result<(), NoMemory>
    ensures { OnOk result (out.new.items ≡ out.old.items ++ allow_line allow) }
{
    match allow {
        Some(method) => write_field(out, b"Allow", method.name()),
        None => Ok(()),
    }
}

/// Writes the identifier of a session.
fn write_session(out: &mut Vec<u8>, id: Uuid) -> Result<(), NoMemory>
    ensures { OnOk result
        (out.new.items ≡ out.old.items ++ field (codes "Ripley-Session") (identifier_text id)) }
{
    let mut room = [0u8; 36];
    let text = id.hyphenated().encode_lower(&mut room);
    write_field(out, b"Ripley-Session", text.as_bytes())
}

/// Writes the session that was opened.
fn write_opened(out: &mut Vec<u8>, opening: &Opening) -> Result<(), NoMemory>
    ensures { OnOk result (out.new.items ≡ out.old.items ++ opened_lines opening.now) }
{
    write_session(out, opening.id)?;
    write_number_field(out, b"Ripley-Seed", u64::from(opening.seed))?;
    write_number_field(out, b"Ripley-Time", opening.time)
}

/// Writes the session that was opened, if the answer is to an opening.
fn write_opening(out: &mut Vec<u8>, opening: &Option<Opening>) -> Result<(), NoMemory>
    ensures { OnOk result (out.new.items ≡ out.old.items ++ opening_lines opening.now) }
{
    match opening {
        Some(opening) => write_opened(out, opening),
        None => Ok(()),
    }
}

/// What stands behind the value of the last field but `Connection`: the end of its line, that the
/// connection is shut, if it is, and the empty line.
fn ending(close: bool) -> &'static [u8]
    ensures { result.now ≡ 13 ∷ 10 ∷ close_line close ++ line [] }
{
    if close {
        b"\r\nConnection: close\r\n\r\n"
    } else {
        b"\r\n\r\n"
    }
}

/// Writes the end of the head: the length of the body, unless the answer is bare, that the
/// connection is shut, if it is, and the empty line.
fn write_end(out: &mut Vec<u8>, answer: &HttpAnswer) -> Result<(), NoMemory>
    ensures { OnOk result (out.new.items
        ≡ out.old.items ++ (length_line answer.now ++ close_line answer.now.close ++ line [])) }
{
    let ending = ending(answer.close);
    if answer.bare {
        return write(out, &ending[2..]);
    }
    write(out, b"Content-Length: ")?;
    write_number(out, answer.body.len() as u64)?;
    write(out, ending)
}

/// Writes the body, unless the answer is bare.
fn write_body(out: &mut Vec<u8>, answer: &HttpAnswer) -> Result<(), NoMemory>
    ensures { OnOk result (out.new.items ≡ out.old.items ++ body_of answer.now) }
{
    if answer.bare {
        Ok(())
    } else {
        write(out, answer.body.as_slice())
    }
}

/// The bytes of an answer.
pub fn answer_bytes(alloc: Global, answer: &HttpAnswer) -> Result<Bytes, NoMemory>
    ensures { IfOk result (λ bytes. bytes ≡ answer_text answer.now) }
{
    let room = answer.body.len().saturating_add(HEAD_ROOM);
    let mut out = Vec::with_capacity(alloc, room)?;
    write_status(&mut out, answer.code)?;
    write_type(&mut out, answer.html)?;
    write_allow(&mut out, answer.allow)?;
    write_opening(&mut out, &answer.opening)?;
    write_end(&mut out, answer)?;
    write_body(&mut out, answer)?;
    Ok(Bytes::from_vec(out))
}
