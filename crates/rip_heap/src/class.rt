ghost use Rattle.std.specs.Prelude.{◌≡◌};
ghost use Rattle.rip_heap.specs.World.{is_array};

/// What kind of object an object of the heap is (ECMA-262 8.6.2).
#[derive(Clone, Copy, Debug, PartialEq, Eq)]
pub enum Class {
    Plain,
    /// The object that a function is made with as its `prototype`.
    Prototype,
    Array,
    /// A function of the script.
    Function,
    Error,
    TypeError,
    RangeError,
    /// A TypeError that the evaluator threw.
    ThrownTypeError,
    /// A ReferenceError that the evaluator threw.
    ThrownReferenceError,
    /// A code that the document threw (DOM Level 2 Core 1.2).
    Code,
    Event,
}

impl Class {
    pub(crate) fn is_array(self) -> bool
        ensures { result ≡ is_array self }
    {
        matches!(self, Class::Array)
    }
}
