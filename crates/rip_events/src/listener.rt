ghost use Rattle.std.specs.Prelude.{◌≡◌};
ghost use Rattle.rip_events.specs.Listed.{is_alike, may_be, is_typed, same_as};

use rip_base::Span;
use rip_values::Pool;

/// A listener: the node on which it is, the text of its type, its function, and whether it is for the capturing phase
/// or for the two others.
#[derive(Clone, Copy, Debug)]
pub struct Listener {
    pub node: u32,
    pub kind: Span,
    pub function: u32,
    pub capture: bool,
}

/// What is sought among listeners, of a function of its own or of any.
#[derive(Clone, Copy, Debug)]
pub struct Wanted {
    pub node: u32,
    pub kind: Span,
    pub function: Option<u32>,
    pub capture: bool,
}

/// Whether the listener is one that is wanted, of a type with the text that is given. Types are compared last.
pub(crate) fn is_typed(pool: &Pool, wanted: Wanted, text: &[u16], listener: Listener) -> bool
    ensures { result ≡ is_typed pool.now wanted text.now listener }
{
    listener.node == wanted.node
        && is_alike(wanted.capture, listener.capture)
        && may_be(wanted.function, listener.function)
        && pool.get(listener.kind) == text
}

fn may_be(wanted: Option<u32>, function: u32) -> bool
    ensures { result ≡ may_be wanted function }
{
    match wanted {
        Some(sought) => function == sought,
        None => true,
    }
}

fn is_alike(wanted: bool, capture: bool) -> bool
    ensures { result ≡ is_alike wanted capture }
{
    if wanted { capture } else { !capture }
}

/// What is sought where this very listener is.
pub(crate) fn same_as(listener: Listener) -> Wanted
    ensures { result ≡ same_as listener }
{
    Wanted {
        node: listener.node,
        kind: listener.kind,
        function: Some(listener.function),
        capture: listener.capture,
    }
}
