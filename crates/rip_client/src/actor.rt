use rip_base::{Bytes, NoMemory};
use rip_eval_rows::Close;
use rip_wire::Item;
use std::alloc::Global;

/// A call that the script made and that was not reported yet: its number, counted from 1, the canonical text of its name
/// and args, and whether it has a callback.
#[derive(Debug, Drop)]
pub struct WaitingCall {
    pub number: u64,
    pub text: Bytes,
    pub calls_back: bool,
}

/// How an item closed, and the fuel that it took.
#[derive(Clone, Copy, Debug, PartialEq, Eq)]
pub struct Over {
    pub close: Close,
    pub fuel: u64,
}

/// A session of which items are played whole, one after another, where G is the type of what gives replies to its calls.
pub trait Actor<G> {
    ghost use Rattle.std.specs.Prelude.{◌≡◌, IfOk};
    ghost use Rattle.rip_wire.specs.Items.{IsItem, reported_of};
    ghost use Rattle.rip_client.specs.Truth.{IsNext, Playing};

    // How the session goes.
    ghost session: { Playing Self G };

    /// Turns to the batch of this number, which has no item yet.
    fn begin_batch(&mut self, alloc: Global, number: u64)
        ensures { session.turns number self.old self.new };

    /// Plays an item, which is next in the batch. A call that is served is given its reply.
    fn play(&mut self, alloc: Global, giver: &mut G, item: Item) -> Result<Over, NoMemory>
        requires { IsItem (reported_of item) }
        ensures { IfOk result
            (λ over. session.plays (reported_of item) self.old giver.old over self.new giver.new) };

    /// The call that is to be reported next.
    fn next_call(&self, alloc: Global) -> Result<Option<WaitingCall>, NoMemory>
        ensures { IfOk result (λ call. IsNext (session.next self.now) call) };
}
