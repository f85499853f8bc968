ghost use Rattle.std.specs.Prelude.{IfOk};
ghost use Rattle.rip_gen.specs.Generated.{IsGenerated};

use crate::generate::forms::trace_of;
use crate::generate::pace::check_pace;
use crate::generate::serving::serve_form;
use crate::generate::summing::sum_up;
use crate::{plan, plans_are_in_range};
use rip_base::{Bytes, NoMemory};
use std::alloc::Global;

/// The line of generated work: `generate N sessions S served A ended B turns T`.
pub fn generate(alloc: Global, n: u32) -> Result<Bytes, NoMemory>
    ensures { IfOk result (IsGenerated n) }
{
    let plan = plan(alloc, n)?;
    plans_are_in_range();
    let text = trace_of(alloc, &plan)?;
    let history = serve_form(alloc, text.as_slice())?;
    check_pace(history.as_slice())?;
    sum_up(alloc, n, plan.sessions(), history.as_slice())
}
