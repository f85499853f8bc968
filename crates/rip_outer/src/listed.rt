ghost use Rattle.std.specs.Prelude.{◌≡◌, ◌+◌, ◌<◌, ◌≤◌, ◌^◌, ◌↔◌, IsTrue, Contains, IfOk};

use rip_base::{NoMemory, NumberList};
use std::alloc::Global;

/// The calls of a form in memory, some of which fail: the numbers of those that do, from 1, and how many calls were
/// made, which stays at the end of 64 bits.
#[derive(Debug, Drop)]
pub struct Calls {
    pub failing: NumberList,
    pub made: u64,
}

impl Calls {
    ghost use Rattle.rip_outer.specs.Calls.{new_calls, after_call, FailsNext, failures_left};

    /// No calls yet, of which these will fail.
    pub fn make(alloc: Global, failing: &NumberList) -> Result<Calls, NoMemory>
        ensures { IfOk result (λ calls. calls ≡ new_calls failing.now) }
    {
        Ok(Calls {
            failing: copy_of_numbers(alloc, failing)?,
            made: 0,
        })
    }

    /// Counts a call, and says whether it fails.
    pub fn fails(&mut self) -> bool
        ensures listed { IsTrue result ↔ FailsNext self.old }
        ensures after { self.new ≡ after_call self.old }
        ensures fewer { IsTrue result → failures_left self.new + 1 ≤ failures_left self.old }
        ensures later { failures_left self.new ≤ failures_left self.old }
    {
        let fails = is_listed(&self.failing, self.made);
        self.made = self.made.saturating_add(1);
        fails
    }
}

/// Whether the call after so many calls is among the failing ones, which are numbered from 1.
pub fn is_listed(failing: &NumberList, calls: u64) -> bool
    ensures listed { IsTrue result ↔ Contains failing.now (calls + 1) }
    ensures fits { IsTrue result → calls + 1 < 2 ^ 64 }
{
    for number in failing.as_slice() {
        if *number != 0 && *number - 1 == calls {
            return true;
        }
    }
    false
}

/// The same numbers once more.
pub fn copy_of_numbers(alloc: Global, numbers: &NumberList) -> Result<NumberList, NoMemory>
    ensures { IfOk result (λ copy. copy ≡ numbers.now) }
{
    NumberList::from_slice(alloc, numbers.as_slice())
}
