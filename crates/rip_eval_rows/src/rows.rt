use crate::completion::{Completed, Completion};
use crate::frame::Wait;
use crate::next::Next;
use crate::part::Part;
use crate::round::{Round, RoundWait};
use rip_base::{NoMemory, Value};
use rip_heap::{Heap, Host};

/// The rows of a program, as code. What the table of its meaning says, these do, each time up to the next part. A fault and a
/// limit are a `Next`; memory is wanting only where the host may want it.
pub trait Rows {
    ghost use Rattle.std.specs.Prelude.{◌≡◌, ◌<◌, ◌≤◌, List, [], length, IsTrue, MatchOption, OnErr, OnOk};
    ghost use Rattle.rip_base.specs.declared.value.Value.{Value as ScriptValue};
    ghost use Rattle.rip_heap.specs.Growth.{Grows};
    ghost use Rattle.rip_eval_rows.specs.Done.{Done};
    ghost use Rattle.rip_eval_rows.specs.Frame.{waiting};
    ghost use Rattle.rip_eval_rows.specs.Rest.{as_row};
    ghost use Rattle.rip_eval_rows.specs.Room.{AreTogether};
    ghost use Rattle.rip_eval_rows.specs.Round.{rest_at, round_next};
    ghost use Rattle.rip_eval_rows.specs.Row.{Table};
    ghost use Rattle.rip_eval_rows.specs.Settle.{settle};
    ghost use Rattle.rip_eval_rows.specs.Stack.{framed};

    // The meaning of the program.
    ghost table: { Self → Table };

    /// Next is what a part does that is entered. Some depth is left for it.
    fn begin(&self, heap: &mut Heap, at: &Part, next: &mut Next)
        ensures row { (values : List ScriptValue)
            → as_row (table self.now) at.now next.new values heap.new
            ≡ (table self.now).row at.now heap.old }
        ensures grows { Grows heap.old heap.new };

    /// What a part comes to that is done at once, with at most so many units. Of any part it may be none, and then nothing
    /// is changed, and the row is asked.
    fn at_once(&self, heap: &mut Heap, at: &Part, most: u64) -> Option<Completed>
        ensures done { MatchOption result (heap.new ≡ heap.old) (λ done.
            Done (table self.now) at.now done.units heap.old done.completion heap.new
            × (done.units ≤ most)) }
        ensures grows { Grows heap.old heap.new };

    /// What a list of statements or a loop does behind one of its parts, where no values are beside its frame.
    fn round(&self, heap: &Heap, at: &Part, wait: &RoundWait, c: &Completion) -> Round
        ensures row { as_row (table self.now) at.now (round_next at.now result) [] heap.now
            ≡ rest_at (table self.now) at.now wait.now c.now heap.now };

    /// Next is what an open part does with the completion of the part that it waits for so, where these values are beside its
    /// frame. The calls of the host with which its row goes on are made. Where there are such values, and the completion has
    /// one too, all of them are at hand side by side.
    fn finish<H: Host>(
        &self,
        heap: &mut Heap,
        host: &mut H,
        at: &Part,
        wait: &Wait,
        values: &[Value],
        all: &[Value],
        c: &Completion,
        next: &mut Next,
    ) -> Result<(), NoMemory>
        requires fits { H.fits host.old heap.old }
        requires all { 0 < length values.now → AreTogether values.now c.now all.now }
        ensures row { OnOk result ((
          as_row (table self.now) at.now next.new values.now
              heap.new,
          host.new,
        ) ≡ settle H.answers ((table self.now).rest
            (framed (waiting at.now wait.now) values.now) c.now heap.old) host.old) }
        ensures memory { OnErr result (IsTrue H.may_want_memory) }
        ensures fits { H.fits host.new heap.new }
        ensures grows { Grows heap.old heap.new };
}
