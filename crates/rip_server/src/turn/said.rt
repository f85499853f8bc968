ghost use Rattle.std.specs.Prelude.{◌≡◌, ◌++◌, IfOk, OnOk};
ghost use Rattle.rip_history.specs.Requests.{error_body};
ghost use Rattle.rip_server.specs.Saying.{error_value};
ghost use Rattle.rip_wire.specs.Tokens.{tokens_of};

use json::Writer;
use rip_base::{Bytes, NoMemory};
use std::alloc::{AllocError, Global};

/// The body `{"error":WORD}`.
pub(crate) fn error_body(alloc: Global, word: &str) -> Result<Bytes, NoMemory>
    ensures { IfOk result (λ body. body ≡ error_body word.now) }
{
    let mut out = Writer::new(Vec::with_capacity(alloc, 32)?);
    write_error(&mut out, word)?;
    Ok(Bytes::from_vec(out.into_inner()))
}

fn write_error(out: &mut Writer, word: &str) -> Result<(), AllocError>
    ensures tokens { OnOk result
        (out.new.tokens ≡ out.old.tokens ++ tokens_of (error_value word.now)) }
    ensures before { out.new.before ≡ out.old.before }
{
    out.begin_object()?;
    out.key("error")?;
    out.string(word)?;
    out.end_object()
}
