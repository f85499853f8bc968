ghost use Rattle.std.specs.Prelude.{◌≡◌, ◌++◌, map, IfOk, OnOk, IsUtf8};
ghost use Rattle.rip_wire.specs.Answers.{said, said_of, served_of, ended_value, served_value, answer_value, answer_text};
ghost use Rattle.rip_wire.specs.Tokens.{tokens_of, closed};

use crate::answer::{Answer, ServedCall};
use crate::ending::Reason;
use json::Writer;
use rip_base::{Bytes, NoMemory};
use rip_data::write_value;
use std::alloc::{AllocError, Global};

/// The body of the answer.
pub fn write_answer(a: &Answer, alloc: Global) -> Result<Bytes, NoMemory>
    ensures text { IfOk result (λ bytes. bytes ≡ answer_text (said_of a.now)) }
    ensures utf8 { IfOk result (λ bytes. IsUtf8 bytes) }
{
    let ended = match &a.ended {
        Some(ending) => Some(ending.reason()),
        None => None,
    };
    answer_body(alloc, a.number, ended, a.served.as_slice())
}

/// The body `{"batch":N,"ended":REASON,"served":[..]}`.
pub fn answer_body(
    alloc: Global,
    number: u64,
    ended: Option<Reason>,
    served: &[ServedCall],
) -> Result<Bytes, NoMemory>
    ensures text { IfOk result (λ bytes. bytes ≡ answer_text (said number ended served.now)) }
    ensures utf8 { IfOk result (λ bytes. IsUtf8 bytes) }
{
    let mut out = Writer::new(Vec::with_capacity(alloc, 128)?);
    write_members(number, ended, served, &mut out, alloc)?;
    Ok(Bytes::from_vec(out.into_inner()))
}

fn write_members(
    number: u64,
    ended: Option<Reason>,
    served: &[ServedCall],
    out: &mut Writer,
    alloc: Global,
) -> Result<(), AllocError>
    ensures tokens { OnOk result
        (out.new.tokens
        ≡ out.old.tokens ++ tokens_of (answer_value (said number ended served.now))) }
    ensures before { out.new.before ≡ out.old.before }
{
    out.begin_object()?;
    out.key("batch")?;
    out.u64(number)?;
    out.key("ended")?;
    write_ended(ended, out)?;
    out.key("served")?;
    out.begin_array()?;
    write_served(served, out, alloc)?;
    out.end_object()
}

fn write_ended(ended: Option<Reason>, out: &mut Writer) -> Result<(), AllocError>
    ensures tokens { OnOk result
        (out.new.tokens ≡ out.old.tokens ++ tokens_of (ended_value ended)) }
    ensures before { out.new.before ≡ out.old.before }
{
    match ended {
        Some(reason) => out.string(reason.word()),
        None => out.null(),
    }
}

// The served calls and the closing bracket.
fn write_served(served: &[ServedCall], out: &mut Writer, alloc: Global) -> Result<(), AllocError>
    ensures tokens { OnOk result
        (out.new.tokens
        ≡ out.old.tokens ++ closed (map served_value (map served_of served.now))) }
    ensures before { out.new.before ≡ out.old.before }
{
    for call in served {
        write_call(call, out, alloc)?;
    }
    out.end_array()
}

fn write_call(call: &ServedCall, out: &mut Writer, alloc: Global) -> Result<(), AllocError>
    ensures tokens { OnOk result
        (out.new.tokens ≡ out.old.tokens ++ tokens_of (served_value (served_of call.now))) }
    ensures before { out.new.before ≡ out.old.before }
{
    out.begin_array()?;
    out.u64(call.number)?;
    out.u64(call.time)?;
    write_value(&call.reply, out, alloc)?;
    out.end_array()
}
