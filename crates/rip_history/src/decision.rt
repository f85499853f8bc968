ghost use Rattle.std.specs.Prelude.{◌≡◌};
ghost use Rattle.rip_history.specs.Decisions.{batch_decision, close_decision};

use crate::standing::{Standing, has_done};

/// What is decided on a batch for a session that was opened.
#[derive(Clone, Copy, Debug, PartialEq, Eq)]
pub enum BatchDecision {
    /// It is the last finished batch of a live session, which is answered as it was.
    Repeat,
    /// The session has ended.
    Gone,
    /// A batch of the session is not done.
    Busy,
    /// The number is below that of the last batch that was admitted.
    Old,
    /// The number is more than one above that of the last batch that was admitted.
    Gap,
    /// It is the next.
    Admit,
}

/// What is decided on the end of a session that was opened.
#[derive(Clone, Copy, Debug, PartialEq, Eq)]
pub enum CloseDecision {
    /// The session has ended.
    Gone,
    /// A batch of the session is not done.
    Busy,
    /// It is closed.
    Close,
}

impl Standing {
    /// What is decided on a batch of this number.
    pub fn decide_batch(self, number: u64) -> BatchDecision
        ensures { result ≡ batch_decision self number }
    {
        if self.is_live() && has_done(self.done, number) {
            BatchDecision::Repeat
        } else if !self.is_live() {
            BatchDecision::Gone
        } else if self.is_busy() {
            BatchDecision::Busy
        } else if number < self.last {
            BatchDecision::Old
        } else if number - self.last > 1 {
            BatchDecision::Gap
        } else {
            BatchDecision::Admit
        }
    }

    /// What is decided on the end of the session.
    pub fn decide_close(self) -> CloseDecision
        ensures { result ≡ close_decision self }
    {
        if !self.is_live() {
            CloseDecision::Gone
        } else if self.is_busy() {
            CloseDecision::Busy
        } else {
            CloseDecision::Close
        }
    }
}
