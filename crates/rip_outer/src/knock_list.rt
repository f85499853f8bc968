ghost use Rattle.std.specs.Prelude.{◌≡◌, ◌<◌, vec_len, vec_capacity};
ghost use Rattle.rip_outer.specs.KnockLists.{allows, is_here, marked, HasMark};

use crate::connections::TraceKnock;
use std::alloc::Global;
use std::marker::Model;
use thiserror::Error;

/// The most bytes of a piece.
pub const MAX_PIECE: usize = 4096;

/// Why a knock wasn't added to a list of knocks.
#[derive(Clone, Copy, Debug, PartialEq, Eq, Error)]
pub enum KnockError {
    #[error("a knock may not follow those before it")]
    NotAllowed,
    #[error("out of memory")]
    Memory,
}

/// Knocks in the order in which they come, as a door may give them: connections are numbered 0, 1, 2 in the order of
/// their opening, a piece has 1 to 4,096 bytes, and a piece or a going comes of a connection that was opened and isn't
/// gone.
#[derive(Debug, Drop)]
pub struct KnockList {
    knocks: Vec<TraceKnock>,
    gone: Vec<bool>,
}

impl Model for KnockList {
    ghost use Rattle.std.specs.Prelude.{List};
    ghost use Rattle.rip_outer.specs.KnockLists.{IsKnockList};
    ghost use Rattle.rip_outer.specs.declared.connections.TraceKnock.{TraceKnock};

    ghost Value = { List TraceKnock };

    ghost view = { λ l. l.knocks.items };

    ghost invariant = { λ l. IsKnockList l.knocks.items l.gone.items };
}

impl KnockList {
    ghost use Rattle.std.specs.Prelude.{◌≡◌, ◌++◌, ◌∷◌, [], map, OnOk, OnErr, IsErrOf};
    ghost use Rattle.rip_outer.specs.Connections.{knocked};
    ghost use Rattle.rip_outer.specs.KnockLists.{MayFollow, AreKnocks};

    /// No knocks.
    pub fn new(alloc: Global) -> KnockList
        ensures { result ≡ [] }
    {
        KnockList {
            knocks: Vec::new(alloc),
            gone: Vec::new(alloc),
        }
    }

    /// Adds a knock at the end.
    ///
    /// # Errors
    ///
    /// `NotAllowed` where the knock may not follow those before it, and `Memory` for want of memory. The list then
    /// stays as it was.
    pub fn push(&mut self, knock: TraceKnock) -> Result<(), KnockError>
        ensures pushed { OnOk result (self.new ≡ self.old ++ knock ∷ []) }
        ensures allowed { OnOk result (MayFollow (map knocked self.old) knock) }
        ensures refused { IsErrOf result KnockError.NotAllowed → ¬ MayFollow (map knocked self.old)
            knock }
        ensures kept { OnErr result (self.new ≡ self.old) }
    {
        if !may_follow(&self.gone, &knock) {
            return Err(KnockError::NotAllowed);
        }
        if self.knocks.reserve(1).is_err() || self.gone.reserve(1).is_err() {
            return Err(KnockError::Memory);
        }
        mark(&mut self.gone, &knock);
        self.knocks.push_reserved(knock);
        Ok(())
    }

    /// The knocks, which may each follow those before it.
    pub fn as_slice(&self) -> &[TraceKnock]
        ensures value { result.now ≡ self.now }
        ensures allowed { AreKnocks self.now }
    {
        self.knocks.as_slice()
    }
}

/// Makes the marks those after a knock, for which there is room.
fn mark(gone: &mut Vec<bool>, knock: &TraceKnock)
    requires room { vec_len gone.old < vec_capacity gone.old }
    requires opened { HasMark gone.old.items knock.now }
    ensures { gone.new.items ≡ marked gone.old.items knock.now }
{
    match knock {
        TraceKnock::Opened(_) => gone.push_reserved(false),
        TraceKnock::Gone(c) => gone[*c as usize] = true,
        TraceKnock::Bytes(_, _) | TraceKnock::Quiet => {}
    }
}

/// Whether a knock may follow others, of which these connections were opened, each of them gone or not.
fn may_follow(gone: &[bool], knock: &TraceKnock) -> bool
    ensures { result ≡ allows gone.now knock.now }
{
    match knock {
        TraceKnock::Opened(c) => *c == gone.len() as u64,
        TraceKnock::Bytes(c, bytes) => {
            is_here(gone, *c) && 1 <= bytes.len() && bytes.len() <= MAX_PIECE
        }
        TraceKnock::Gone(c) => is_here(gone, *c),
        TraceKnock::Quiet => true,
    }
}

/// Whether a connection was opened and isn't gone.
fn is_here(gone: &[bool], c: u64) -> bool
    ensures { result ≡ is_here gone.now c }
{
    matches!(gone.get(c as usize), Some(false))
}
