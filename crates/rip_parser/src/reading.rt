ghost use Rattle.std.specs.Prelude.{◌≡◌, map, IfOk};
ghost use Rattle.rip_parser.specs.Words.{lexeme_of, lexemes_of};

use rip_base::{List, NoMemory};
use rip_grammar::{Lexeme, Word};
use rip_lexer::Token;
use std::alloc::{AllocError, Global};

/// The lexemes of a script: its tokens, and the end behind them (ECMA-262 7.5 to 7.8). A script whose places 32 bits
/// cannot count is refused as want of memory.
pub fn lexemes(alloc: Global, script: &[u16], tokens: &[Token]) -> Result<List<Lexeme>, NoMemory>
    ensures { IfOk result (λ lexemes. lexemes ≡ lexemes_of script.now tokens.now) }
{
    if script.len() > u32::MAX as usize {
        return Err(NoMemory);
    }
    let mut lexemes = read(alloc, tokens)?;
    lexemes.push(Lexeme {
        word: Word::End,
        start: script.len() as u32,
        count: 0,
        line_before: false,
    })?;
    Ok(List::from_vec(lexemes))
}

/// The tokens as lexemes.
fn read(alloc: Global, tokens: &[Token]) -> Result<Vec<Lexeme>, AllocError>
    ensures { IfOk result (λ lexemes. lexemes.items ≡ map lexeme_of tokens.now) }
{
    tokens.iter().map(|token| lexeme_of(*token)).collect(alloc)
}

/// A token as a lexeme.
fn lexeme_of(token: Token) -> Lexeme
    ensures { result ≡ lexeme_of token }
{
    Lexeme {
        word: token.word,
        start: token.start,
        count: token.count,
        line_before: token.line_before,
    }
}
