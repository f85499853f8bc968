ghost use Rattle.std.specs.Prelude.{◌≡◌};

use rip_base::{NoMemory, Value};
use rip_eval_rows::{Completion, HostedWait, Inner, Next, OwnWait, Stop, Wait};

/// What a row function answers that may ask the host: what the part does next. Memory is wanting only where the host may want
/// it.
pub type Answer = Result<Next, NoMemory>;

/// The row ends with a value.
pub fn give(v: Value) -> Next
    ensures { result ≡ Next.End (Completion.Normal v) }
{
    Next::End(Completion::Normal(v))
}

/// The row ends with a completion.
pub fn end(c: &Completion) -> Next
    ensures { result ≡ Next.End c.now }
{
    Next::End(*c)
}

/// The row waits for this part.
pub fn ask(part: Inner, wait: OwnWait) -> Next
    ensures { result ≡ Next.Ask part (Wait.Own wait) }
{
    Next::Ask(part, Wait::Own(wait))
}

/// The same, where the host may be asked next.
pub fn ask_hosted(part: Inner, wait: HostedWait) -> Next
    ensures { result ≡ Next.Ask part (Wait.Hosted wait) }
{
    Next::Ask(part, Wait::Hosted(wait))
}

/// The run stops.
pub fn halt(stop: Stop) -> Next
    ensures { result ≡ Next.Halt stop }
{
    Next::Halt(stop)
}
