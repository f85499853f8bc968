ghost use Rattle.std.specs.Prelude.{◌≡◌};
ghost use Rattle.rip_heap.specs.Outcome.{Answers, number_or_fault, truth_or_fault};

use crate::heap::Heap;
use rip_base::{Fault, Limit, NoMemory, Numeral, Refused, Value};
use std::alloc::AllocError;

/// Why an operation has no value: an operator, a built-in function or an access to a member. The heap is then as it
/// was before it.
#[derive(Clone, Copy, Debug, PartialEq, Eq)]
pub enum Abrupt {
    /// A TypeError is to be thrown.
    TypeError,
    Fault(Fault),
    Limit(Limit),
    Memory,
}

/// Why a conversion to text has none.
#[derive(Clone, Copy, Debug, PartialEq, Eq)]
pub enum Halt {
    Fault(Fault),
    Limit(Limit),
}

impl From<Fault> for Halt {
    ghost use Rattle.std.specs.Prelude.{◌≡◌};
    ghost use Rattle.rip_heap.specs.declared.outcome.Halt.TheVariants.{Fault as AtFault};

    ghost from_gives = { λ fault halt. halt ≡ AtFault fault };

    fn from(fault: Fault) -> Halt {
        Halt::Fault(fault)
    }
}

impl From<Halt> for Abrupt {
    ghost use Rattle.std.specs.Prelude.{◌≡◌};
    ghost use Rattle.rip_heap.specs.Outcome.{cause_of_halt};

    ghost from_gives = { λ halt cause. cause ≡ cause_of_halt halt };

    fn from(halt: Halt) -> Abrupt {
        match halt {
            Halt::Fault(fault) => Abrupt::Fault(fault),
            Halt::Limit(limit) => Abrupt::Limit(limit),
        }
    }
}

impl From<Fault> for Abrupt {
    ghost use Rattle.std.specs.Prelude.{◌≡◌};
    ghost use Rattle.rip_heap.specs.declared.outcome.Abrupt.TheVariants.{Fault as AtFault};

    ghost from_gives = { λ fault cause. cause ≡ AtFault fault };

    fn from(fault: Fault) -> Abrupt {
        Abrupt::Fault(fault)
    }
}

impl From<Limit> for Abrupt {
    ghost use Rattle.std.specs.Prelude.{◌≡◌};
    ghost use Rattle.rip_heap.specs.declared.outcome.Abrupt.TheVariants.{Limit as AtLimit};

    ghost from_gives = { λ limit cause. cause ≡ AtLimit limit };

    fn from(limit: Limit) -> Abrupt {
        Abrupt::Limit(limit)
    }
}

impl From<NoMemory> for Abrupt {
    ghost use Rattle.std.specs.Prelude.{◌≡◌};
    ghost use Rattle.rip_heap.specs.declared.outcome.Abrupt.TheVariants.{Memory};

    ghost from_gives = { λ _ cause. cause ≡ Memory };

    fn from(_: NoMemory) -> Abrupt {
        Abrupt::Memory
    }
}

impl From<AllocError> for Abrupt {
    ghost use Rattle.std.specs.Prelude.{◌≡◌};
    ghost use Rattle.rip_heap.specs.declared.outcome.Abrupt.TheVariants.{Memory};

    ghost from_gives = { λ _ cause. cause ≡ Memory };

    fn from(_: AllocError) -> Abrupt {
        Abrupt::Memory
    }
}

impl From<Refused> for Abrupt {
    ghost use Rattle.std.specs.Prelude.{◌≡◌};
    ghost use Rattle.rip_heap.specs.Outcome.{cause_of_refusal};

    ghost from_gives = { λ refused cause. cause ≡ cause_of_refusal refused };

    fn from(refused: Refused) -> Abrupt {
        match refused {
            Refused::Limit(limit) => Abrupt::Limit(limit),
            Refused::Memory => Abrupt::Memory,
        }
    }
}

/// The answer of a call that gives a number or a fault, and leaves the heap as it is.
pub fn number_done(heap: &Heap, answer: Result<Numeral, Fault>) -> Result<Value, Abrupt>
    ensures { Answers (number_or_fault heap.now answer) heap.now result heap.now }
{
    Ok(answer?.into())
}

/// The answer of a call that gives a truth or a fault, and leaves the heap as it is.
pub fn truth_done(heap: &Heap, answer: Result<bool, Fault>) -> Result<Value, Abrupt>
    ensures { Answers (truth_or_fault heap.now answer) heap.now result heap.now }
{
    Ok(Value::Bool(answer?))
}
