ghost use Rattle.rip_outer.specs.Writing.{CountsPut};
ghost use Rattle.rip_script.specs.Steps.{Puts};
ghost use Rattle.rip_script.specs.Texts.{tokens_text};

use crate::block::{put_block, put_full_block};
use crate::lines::write_token;
use rip_base::Writer;
use rip_lexer::Token;
use rip_outer::{Sink, SinkError};
use std::alloc::Global;

/// Puts a line for each token, as it is made.
pub fn put_tokens<S: Sink>(alloc: Global, tokens: &[Token], out: &mut S) -> Result<(), SinkError>
    ensures put { Puts result (tokens_text tokens.now) (S.held out.old) (S.held out.new) }
    ensures counted { CountsPut result (S.count out.old) (S.count out.new) }
{
    let mut block = Writer::new(alloc);
    for token in tokens {
        write_token(&mut block, token)?;
        put_full_block(&mut block, out)?;
    }
    put_block(&mut block, out)
}
