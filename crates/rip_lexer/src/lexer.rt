ghost use Rattle.std.specs.Prelude.{All, IfErr, IfOk};
ghost use Rattle.rip_lexer.specs.Tokens.{GivesRefusal, GivesTokens, HaveAReading, HaveNotBoth, HaveOneList, HaveOneRefusal, IsRefusal, IsTokenOf, IsTokens, TextsHaveOneValue};
ghost use Rattle.rip_lexer.specs.Tables.{MarksAreApart, NamesAreIdentifiers, ReservedAreApart};

use crate::construct::{Construct, first_construct};
use crate::gap::longest_gap;
use crate::refusal::LexRefusal;
use crate::token::{Token, Tokens};
use rip_base::List;
use std::alloc::Global;

/// The tokens of a script, or the first construct of it that is refused (ECMA-262 7). A script whose places 32 bits
/// cannot count is answered with want of memory.
pub fn tokens(alloc: Global, text: &[u16]) -> Result<Tokens, LexRefusal>
    // What is answered is so.
    ensures found { IfOk result (IsTokens text.now) }
    ensures refused { IfErr result (IsRefusal text.now) }

    // Each token can be read at its place.
    ensures spelled { IfOk result (All (IsTokenOf text.now)) }

    // What is so is answered, unless memory runs out.
    ensures all { GivesTokens text.now result }
    ensures first { GivesRefusal text.now result }
{
    if text.len() > u32::MAX as usize {
        return Err(LexRefusal::Memory);
    }
    let mut tokens = Vec::new(alloc);
    let mut place: usize = 0;
    let mut rest = text;
    'script: loop {
        let gap = longest_gap(rest);
        let (_, behind) = rest.split_at(gap.count);
        place += gap.count;
        match first_construct(behind) {
            Construct::Nothing => return Ok(List::from_vec(tokens)),
            Construct::Refused(fault) => {
                return Err(LexRefusal::At {
                    place: (place + fault.offset) as u32,
                    kind: fault.kind,
                });
            }
            Construct::Token { kind, word, count } => {
                tokens.push(Token {
                    kind,
                    word,
                    start: place as u32,
                    count: count as u32,
                    line_before: gap.holds_line_end,
                })?;
                place += count;
                (_, rest) = behind.split_at(count);
            }
        }
    }
}

/// Each script has one list of tokens or one first refusal, and not both; a text stands for one list of units.
pub fn readings_are_one()
    ensures some { HaveAReading }
    ensures tokens { HaveOneList }
    ensures refusals { HaveOneRefusal }
    ensures apart { HaveNotBoth }
    ensures texts { TextsHaveOneValue }
{}

/// The words of tokens: exactly the names and reserved words may stand behind `.` and as keys, and no two punctuators are
/// one word, nor two reserved words that a rule has.
pub fn words_are_apart()
    ensures names { NamesAreIdentifiers }
    ensures marks { MarksAreApart }
    ensures reserved { ReservedAreApart }
{}
