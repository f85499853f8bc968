ghost use Rattle.std.specs.Prelude.{◌≡◌};

use crate::heap::Heap;
use crate::outcome::Abrupt;
use rip_base::{Fault, Limit, Span, Value};

/// What a call of a host answers.
#[derive(Clone, Copy, Debug, PartialEq, Eq)]
pub enum HostDone {
    Value(Value),
    /// A TypeError is to be thrown.
    TypeFault,
    /// This code of the document is to be thrown (DOM Level 2 Core 1.2).
    Dom(u8),
    Fault(Fault),
    Limit(Limit),
    Memory,
}

impl From<Abrupt> for HostDone {
    ghost use Rattle.std.specs.Prelude.{◌≡◌};
    ghost use Rattle.rip_heap.specs.Host.{done_of_cause};

    ghost from_gives = { λ cause done. done ≡ done_of_cause cause };

    fn from(cause: Abrupt) -> HostDone {
        match cause {
            Abrupt::TypeError => HostDone::TypeFault,
            Abrupt::Fault(fault) => HostDone::Fault(fault),
            Abrupt::Limit(limit) => HostDone::Limit(limit),
            Abrupt::Memory => HostDone::Memory,
        }
    }
}

/// What stands behind the objects that are not the heap's: the document, its nodes, and the built-in functions that
/// work on them. Each call is a function of the heap and the host, its charges included. A fault, a limit and want of
/// memory leave both as they were.
pub trait Host {
    ghost use Rattle.std.specs.Prelude.{◌≡◌, Bool, IsTrue};
    ghost use Rattle.rip_heap.specs.declared.host.HostDone.{HostDone};
    ghost use Rattle.rip_heap.specs.World.{World};
    ghost use Rattle.rip_heap.specs.Growth.{Grows};
    ghost use Rattle.rip_heap.specs.Host.{Request, Reads, Writes, Calls, Gives, Keeps, AnswerBelongs, LeavesOnRefusal};

    // The host goes with a heap of this world: each span and object that it keeps stands there.
    ghost fits: { Self → World → Type 0 };

    // What is answered to a request, and the world and the host that are left.
    ghost answers: { Self → World → Request → HostDone × World × Self };

    // Whether a call may answer want of memory.
    ghost may_want_memory: { Bool };

    /// The value of this member of the object.
    fn read(&mut self, heap: &mut Heap, object: u32, name: Span) -> HostDone
        requires { fits self.old heap.old }
        ensures gives { Gives (answers self.old heap.old (Reads object name)) result heap.new
            self.new }
        ensures memory { result ≡ HostDone.Memory → IsTrue may_want_memory }
        ensures fits { fits self.new heap.new }
        ensures keeps { Keeps heap.old heap.new }
        ensures belongs { AnswerBelongs heap.new result }
        ensures refused { LeavesOnRefusal heap.old self.old result heap.new self.new };

    /// Writes this member of the object. The value that is answered counts for nothing.
    fn write(&mut self, heap: &mut Heap, object: u32, name: Span, v: Value) -> HostDone
        requires { fits self.old heap.old }
        ensures gives { Gives (answers self.old heap.old (Writes object name v)) result heap.new
            self.new }
        ensures memory { result ≡ HostDone.Memory → IsTrue may_want_memory }
        ensures fits { fits self.new heap.new }
        ensures keeps { Keeps heap.old heap.new }
        ensures belongs { AnswerBelongs heap.new result }
        ensures refused { LeavesOnRefusal heap.old self.old result heap.new self.new };

    /// The call of the built-in function `which` on `this`.
    fn call(&mut self, heap: &mut Heap, which: u32, this: Value, args: &[Value]) -> HostDone
        requires { fits self.old heap.old }
        ensures gives { Gives (answers self.old heap.old (Calls which this args.now)) result
            heap.new self.new }
        ensures memory { result ≡ HostDone.Memory → IsTrue may_want_memory }
        ensures fits { fits self.new heap.new }
        ensures keeps { Keeps heap.old heap.new }
        ensures belongs { AnswerBelongs heap.new result }
        ensures refused { LeavesOnRefusal heap.old self.old result heap.new self.new };

    // A heap that only grew is still one that the host goes with.
    ghost stays: { (host : Self) (old new : World) → fits host old → Grows old new
        → fits host new };
}

/// A host with nothing behind it: each call is outside the profile.
#[derive(Clone, Copy, Debug)]
pub struct EmptyHost;

impl Host for EmptyHost {
    ghost use Rattle.std.specs.Prelude.{⊤, false};
    ghost use Rattle.rip_base.specs.declared.value.Fault.TheVariants.{NotInProfile};
    ghost use Rattle.rip_heap.specs.declared.host.HostDone.TheVariants.{Fault};

    ghost fits = { λ _ _. ⊤ };

    ghost answers = { λ host w _. (Fault NotInProfile, w, host) };

    ghost may_want_memory = { false };

    ghost stays = { λ _ _ _ _ _. tt };

    fn read(&mut self, _heap: &mut Heap, _object: u32, _name: Span) -> HostDone {
        not_in_profile()
    }

    fn write(&mut self, _heap: &mut Heap, _object: u32, _name: Span, _v: Value) -> HostDone {
        not_in_profile()
    }

    fn call(&mut self, _heap: &mut Heap, _which: u32, _this: Value, _args: &[Value]) -> HostDone {
        not_in_profile()
    }
}

fn not_in_profile() -> HostDone
    ensures { result ≡ HostDone.Fault Fault.NotInProfile }
{
    HostDone::Fault(Fault::NotInProfile)
}
