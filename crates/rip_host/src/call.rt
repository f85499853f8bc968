ghost use Rattle.std.specs.Prelude.{◌≡◌};
ghost use Rattle.rip_host.specs.HostCalls.{host_call_of};

use rip_nodes::NodeCall;
use rip_values::Builtin;

/// A call that a browser answers.
#[derive(Clone, Copy, Debug, PartialEq, Eq)]
pub enum HostCall {
    OnNode(NodeCall),
    AddEventListener,
    RemoveEventListener,
    StopPropagation,
    PreventDefault,
    Call,
    Now,
    Random,
}

impl HostCall {
    /// The call that this built-in function is.
    pub fn of(function: Builtin) -> Option<HostCall>
        ensures { result ≡ host_call_of function }
    {
        match function {
            Builtin::AddEventListener => Some(HostCall::AddEventListener),
            Builtin::RemoveEventListener => Some(HostCall::RemoveEventListener),
            Builtin::StopPropagation => Some(HostCall::StopPropagation),
            Builtin::PreventDefault => Some(HostCall::PreventDefault),
            Builtin::RipleyCall => Some(HostCall::Call),
            Builtin::RipleyNow => Some(HostCall::Now),
            Builtin::RipleyRandom => Some(HostCall::Random),
            _ => match NodeCall::of(function) {
                Some(call) => Some(HostCall::OnNode(call)),
                None => None,
            },
        }
    }
}
