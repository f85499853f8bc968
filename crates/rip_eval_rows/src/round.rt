ghost use Rattle.std.specs.Prelude.{◌≡◌, IfSome};
ghost use Rattle.rip_eval_rows.specs.Round.{asked_at, own_wait, round_next};

use crate::completion::Completion;
use crate::frame::{Ending, OwnWait, Wait};
use crate::next::Next;
use crate::part::{Inner, Part};

/// Where a list of statements or a loop waits. No value is kept there.
#[derive(Clone, Copy, Debug)]
pub enum RoundWait {
    /// A statement of a list (ECMA-262 12.1, 13, 14).
    Statement { place: u32, ending: Ending },
    /// The statement and the test of `do` (12.6.1).
    DoBody,
    DoTest,
    /// The test and the statement of `while` (12.6.2).
    WhileTest,
    WhileBody,
    /// The test of a `for`, its update and its statement (12.6.3).
    ForTest,
    ForUpdate,
    ForBody,
}

/// What a list of statements or a loop does behind one of its parts.
#[derive(Clone, Copy, Debug)]
pub enum Round {
    /// It waits for this node as a part inside it, and there.
    Part { node: u32, wait: RoundWait },
    /// It ends.
    End(Completion),
}

impl RoundWait {
    /// The place among those of all parts, if it is one of these.
    pub(crate) fn of(wait: &Wait) -> Option<RoundWait>
        ensures { IfSome result (λ place. wait.now ≡ Wait.Own (own_wait place)) }
    {
        let Wait::Own(own) = wait else {
            return None;
        };
        match own {
            OwnWait::Statement { place, ending } => Some(RoundWait::Statement {
                place: *place,
                ending: *ending,
            }),
            OwnWait::DoBody => Some(RoundWait::DoBody),
            OwnWait::DoTest => Some(RoundWait::DoTest),
            OwnWait::WhileTest => Some(RoundWait::WhileTest),
            OwnWait::WhileBody => Some(RoundWait::WhileBody),
            OwnWait::ForTest => Some(RoundWait::ForTest),
            OwnWait::ForUpdate => Some(RoundWait::ForUpdate),
            OwnWait::ForBody => Some(RoundWait::ForBody),
            _ => None,
        }
    }

    // The same among those of all parts.
    fn own(&self) -> OwnWait
        ensures { result ≡ own_wait self.now }
    {
        match self {
            RoundWait::Statement { place, ending } => OwnWait::Statement {
                place: *place,
                ending: *ending,
            },
            RoundWait::DoBody => OwnWait::DoBody,
            RoundWait::DoTest => OwnWait::DoTest,
            RoundWait::WhileTest => OwnWait::WhileTest,
            RoundWait::WhileBody => OwnWait::WhileBody,
            RoundWait::ForTest => OwnWait::ForTest,
            RoundWait::ForUpdate => OwnWait::ForUpdate,
            RoundWait::ForBody => OwnWait::ForBody,
        }
    }

    /// What the open part does that waits here for a part.
    pub(crate) fn asked(&self, part: Inner) -> Next
        ensures { result ≡ asked_at self.now part }
    {
        let wait = Wait::Own(self.own());
        match self {
            RoundWait::Statement { .. } => Next::Ask(part, wait),
            _ => Next::Turn(part, wait),
        }
    }
}

impl Round {
    /// What the open part does next.
    pub fn next(&self, at: &Part) -> Next
        ensures { result ≡ round_next at.now self.now }
    {
        match self {
            Round::Part { node, wait } => wait.asked(at.inner(*node)),
            Round::End(c) => Next::End(*c),
        }
    }
}
