ghost use Rattle.std.specs.Prelude.{◌≡◌};
ghost use Rattle.rip_history.specs.Standings.{when_opened, when_admitted, when_done, when_closed, is_live, is_busy, has_done};

use rip_wire::Reason;

/// How a session stands after a history.
#[derive(Clone, Copy, Debug, PartialEq, Eq)]
pub struct Standing {
    /// The number of the last batch that was admitted. The opening is batch 0.
    pub last: u64,
    /// The number of the last batch that was done.
    pub done: Option<u64>,
    /// Why the session ended.
    pub ended: Option<Reason>,
}

impl Standing {
    /// A session as it is opened: batch 0 is not done.
    pub fn opened() -> Standing
        ensures { result ≡ when_opened }
    {
        Standing {
            last: 0,
            done: None,
            ended: None,
        }
    }

    /// After a batch of this number was admitted.
    pub fn admit(self, number: u64) -> Standing
        ensures { result ≡ when_admitted number self }
    {
        Standing {
            last: number,
            done: self.done,
            ended: self.ended,
        }
    }

    /// After a batch of this number was done, and ended the session for this reason, if it did.
    pub fn finish(self, number: u64, ended: Option<Reason>) -> Standing
        ensures { result ≡ when_done number ended self }
    {
        Standing {
            last: self.last,
            done: Some(number),
            ended,
        }
    }

    /// After the client closed the session.
    pub fn close(self) -> Standing
        ensures { result ≡ when_closed self }
    {
        Standing {
            last: self.last,
            done: self.done,
            ended: Some(Reason::Closed),
        }
    }

    /// The session has not ended.
    pub fn is_live(self) -> bool
        ensures { result ≡ is_live self }
    {
        self.ended.is_none()
    }

    /// A batch that was admitted is not done.
    pub fn is_busy(self) -> bool
        ensures { result ≡ is_busy self }
    {
        !has_done(self.done, self.last)
    }
}

/// The last batch that was done is that of this number.
pub(crate) fn has_done(done: Option<u64>, number: u64) -> bool
    ensures { result ≡ has_done done number }
{
    match done {
        Some(last) => last == number,
        None => false,
    }
}
