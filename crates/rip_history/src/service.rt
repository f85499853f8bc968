use rip_base::{NoMemory, Units};
use rip_data::DatumList;
use rip_store::{Replies, Store};
use std::alloc::Global;

/// What replies to served calls.
pub trait Service {
    ghost use Rattle.std.specs.Prelude.{◌≡◌, ◌++◌, ◌∷◌, [], List, OnOk, OnErr, IfOk};
    ghost use Rattle.rip_data.specs.Datum.{trees_in};
    ghost use Rattle.rip_wire.specs.Items.{AreArgs};
    ghost use Rattle.rip_store.specs.Outcomes.{AreReplies};
    ghost use Rattle.rip_store.specs.Kept.{AreAcceptedReplies};
    ghost use Rattle.rip_history.specs.Services.{Called, Service as Meant};

    // It replies as this service does after these calls.
    ghost replies_as: { Self → Meant → List Called → Type 0 };

    /// The reply to a call of this name with these args, three times. Want of memory leaves all as before.
    fn apply(&mut self, alloc: Global, name: &Units, args: &DatumList) -> Result<Replies, NoMemory>
        requires { AreArgs (trees_in args.now) }
        ensures replies { (service : Meant) (calls : List Called)
            → replies_as self.old service calls
            → IfOk result (AreReplies (service calls (name.now, trees_in args.now))) }
        ensures called { (service : Meant) (calls : List Called) → replies_as self.old service calls
            → OnOk result (replies_as self.new service
            (calls ++ (name.now, trees_in args.now) ∷ [])) }
        ensures accepted { (service : Meant) (calls : List Called)
            → replies_as self.old service calls
            → IfOk result AreAcceptedReplies }
        ensures memory { (service : Meant) (calls : List Called) → replies_as self.old service calls
            → OnErr result (replies_as self.new service calls) };
}

impl Service for Store {
    ghost use Rattle.rip_history.specs.Services.{RepliesAs};

    ghost replies_as = { RepliesAs };

    fn apply(
        &mut self,
        alloc: Global,
        name: &Units,
        args: &DatumList,
    ) -> Result<Replies, NoMemory> {
        self.apply(alloc, name, args)
    }
}
