ghost use Rattle.std.specs.Prelude.{◌≡◌, ◌≢◌, ◌∷◌, ◌++◌, [], map, min, IfOk, IfErr, OnOk, IsErrOf};
ghost use Rattle.rip_outer.specs.Connections.{knocked, IsLive};
ghost use Rattle.rip_outer.specs.KnockLists.{MayFollow};
ghost use Rattle.rip_outer.specs.Pieces.{pieces};
ghost use Rattle.rip_trace.specs.Lines.{Line as AnyLine};
ghost use Rattle.rip_trace.specs.Requests.{in_pieces};
ghost use Rattle.rip_trace.specs.Shown.{line_of};
ghost use Rattle.rip_trace.specs.Spelling.{IsSpelled};
ghost use Rattle.rip_trace.specs.Steps.{also, with_line, MayFollowKnocks, IsAdded, AreWords};
ghost use Rattle.rip_trace.specs.Traces.{IsTrace, IsRefusal};

use crate::line::{Line, read_line, word_told};
use crate::request::write_request;
use crate::trace::{Trace, TraceRefusal};
use rip_base::{Bytes, List, NoMemory, NumberList};
use rip_outer::{KnockError, KnockList, MAX_PIECE, TraceKnock, lines};
use rip_wire::LineError;
use std::alloc::Global;
use std::marker::Model;

/// What the text is a trace of.
pub fn read_trace(alloc: Global, text: &[u8]) -> Result<Trace, TraceRefusal>
    ensures ok { IfOk result (λ t. IsTrace text.now t) }
    ensures refused { IfErr result (IsRefusal text.now) }
{
    let Ok(words) = words_in(alloc, text) else {
        return Err(TraceRefusal::Memory);
    };
    let mut reading = Reading::new(alloc);
    let drawn = words.as_slice();
    let mut number = 0u64;
    for line in lines(text) {
        number += 1;
        match reading.add(alloc, drawn, line) {
            Ok(()) => {}
            Err(LineError::Other) => return Err(TraceRefusal::Line(number)),
            Err(LineError::Memory) => return Err(TraceRefusal::Memory),
        }
    }
    match reading.finish(words) {
        Ok(trace) => Ok(trace),
        Err(NoMemory) => Err(TraceRefusal::Memory),
    }
}

/// The words that the lines of a text give. They are drawn wherever they stand, so that they are read first.
fn words_in(alloc: Global, text: &[u8]) -> Result<NumberList, NoMemory>
    ensures { IfOk result (λ words. AreWords (pieces text.now) words) }
{
    let mut words = Vec::new(alloc);
    for line in lines(text) {
        if let Some(word) = word_told(line) {
            words.push(word)?;
        }
    }
    Ok(List::from_vec(words))
}

/// A trace that is being read. Contracts see the knocks with their moments, and the moment of those that follow.
#[derive(Drop)]
struct Reading {
    knocks: KnockList,
    moments: Vec<u64>,
    now: u64,
}

impl Model for Reading {
    ghost use Rattle.rip_trace.specs.Steps.{Sofar};

    ghost Value = { Sofar };

    ghost view = { λ r. record { knocks = r.knocks; moments = r.moments.items; now = r.now } };
}

impl Reading {
    ghost use Rattle.std.specs.Prelude.{◌≡◌, ◌++◌, ◌∷◌, [], IfOk};

    fn new(alloc: Global) -> Reading
        ensures { result ≡ record { knocks = []; moments = []; now = 0 } }
    {
        Reading {
            knocks: KnockList::new(alloc),
            moments: Vec::new(alloc),
            now: 0,
        }
    }

    /// The trace, with the moment of the turns behind its last knock.
    fn finish(self, words: NumberList) -> Result<Trace, NoMemory>
        ensures { IfOk result
            (λ t. t ≡ record {
              knocks = self.knocks;
              moments = self.moments ++ self.now
                  ∷ [];
              words = words;
            }) }
    {
        let mut moments = self.moments;
        moments.push(self.now)?;
        Ok(Trace::new(self.knocks, List::from_vec(moments), words))
    }

    /// Adds the line that the bytes spell.
    #[tactic(auto, using(crate::proofs::StepLemmas::added, crate::proofs::StepLemmas::not_added, crate::proofs::StepLemmas::not_spelled))]
    fn add(&mut self, alloc: Global, words: &[u64], bytes: &[u8]) -> Result<(), LineError>
        ensures ok { OnOk result (IsAdded words.now bytes.now self.old self.new) }
        ensures other { IsErrOf result LineError.Other
            → (l : AnyLine) → MayFollowKnocks self.old.knocks l → ¬ IsSpelled bytes.now l }
    {
        let line = read_line(alloc, bytes)?;
        self.add_line(alloc, words, line)
    }

    /// Adds a line.
    fn add_line(&mut self, alloc: Global, words: &[u64], line: Line<'_>) -> Result<(), LineError>
        ensures ok { OnOk result (self.new ≡ with_line words.now self.old (line_of line.entry)) }
        ensures allowed { OnOk result (MayFollowKnocks self.old.knocks (line_of line.entry)) }
        ensures other { IsErrOf result LineError.Other
            → ¬ MayFollowKnocks self.old.knocks (line_of line.entry) }
    {
        match line {
            Line::Comment(_) | Line::Word(_) => Ok(()),
            Line::Moment(moment) => {
                self.now = moment;
                Ok(())
            }
            Line::Opened(c) => self.push(TraceKnock::Opened(c)),
            Line::Sent(c, piece) => self.push(TraceKnock::Bytes(c, piece)),
            Line::Gone(c) => self.push(TraceKnock::Gone(c)),
            Line::Quiet => self.push(TraceKnock::Quiet),
            Line::Said(c, asked) => {
                let request = write_request(alloc, words, &asked)?;
                self.say(alloc, c, request.as_slice())
            }
        }
    }

    /// Adds a knock.
    fn push(&mut self, knock: TraceKnock) -> Result<(), LineError>
        ensures ok { OnOk result (self.new ≡ also self.old (knock ∷ [])) }
        ensures allowed { OnOk result (MayFollow (map knocked self.old.knocks) knock) }
        ensures other { IsErrOf result LineError.Other
            → ¬ MayFollow (map knocked self.old.knocks) knock }
    {
        match self.knocks.push(knock) {
            Ok(()) => {}
            Err(KnockError::NotAllowed) => return Err(LineError::Other),
            Err(KnockError::Memory) => return Err(LineError::Memory),
        }
        self.moments.push(self.now)?;
        Ok(())
    }

    /// Adds bytes that come on a connection, in pieces of 4,096.
    fn say(&mut self, alloc: Global, c: u64, bytes: &[u8]) -> Result<(), LineError>
        requires { bytes.now ≢ [] }
        ensures ok { OnOk result
            (self.new ≡ also self.old (map (TraceKnock.Bytes c) (in_pieces bytes.now))) }
        ensures allowed { OnOk result (IsLive (map knocked self.old.knocks) [] c) }
        ensures other { IsErrOf result LineError.Other → ¬ IsLive (map knocked self.old.knocks) []
            c }
    {
        let mut rest = bytes;
        while !rest.is_empty() {
            let (piece, behind) = rest.split_at(piece_length(rest.len()));
            self.push(TraceKnock::Bytes(c, Bytes::from_slice(alloc, piece)?))?;
            rest = behind;
        }
        Ok(())
    }
}

/// How many of so many bytes the first piece has.
fn piece_length(length: usize) -> usize
    ensures { result ≡ min length 4096 }
{
    length.min(MAX_PIECE)
}
