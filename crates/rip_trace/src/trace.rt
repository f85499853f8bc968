use rip_base::NumberList;
use rip_outer::KnockList;
use std::marker::Model;
use thiserror::Error;

/// What a trace stands for. Contracts see its knocks, moments and words.
#[derive(Debug, Drop)]
pub struct Trace {
    knocks: KnockList,
    moments: NumberList,
    words: NumberList,
}

impl Model for Trace {
    ghost use Rattle.rip_trace.specs.Traces.{Given};

    ghost Value = { Given };

    ghost view = { λ t. record { knocks = t.knocks; moments = t.moments; words = t.words } };
}

impl Trace {
    ghost use Rattle.std.specs.Prelude.{◌≡◌};

    pub(crate) fn new(knocks: KnockList, moments: NumberList, words: NumberList) -> Trace
        ensures { result ≡ record { knocks = knocks; moments = moments; words = words } }
    {
        Trace {
            knocks,
            moments,
            words,
        }
    }

    /// What comes at a door.
    pub fn knocks(&self) -> &KnockList
        ensures { result.now ≡ self.now.knocks }
    {
        &self.knocks
    }

    /// The moments of the turns, in milliseconds: one for each knock, and one for the turns behind the last.
    pub fn moments(&self) -> &NumberList
        ensures { result.now ≡ self.now.moments }
    {
        &self.moments
    }

    /// The words that are drawn, as far as the trace gives them.
    pub fn words(&self) -> &NumberList
        ensures { result.now ≡ self.now.words }
    {
        &self.words
    }
}

/// Why a trace was not read.
#[derive(Clone, Copy, Debug, PartialEq, Eq, Error)]
pub enum TraceRefusal {
    /// The first line that is none of a trace, counted from 1.
    #[error("line {0} is none of a trace")]
    Line(u64),
    /// Memory ran out.
    #[error("out of memory")]
    Memory,
}
