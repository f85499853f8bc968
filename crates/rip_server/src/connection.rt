ghost use Rattle.std.specs.Bool.{OnTrue, OnFalse};
ghost use Rattle.rip_history.specs.Run.{IsQuiet};
ghost use Rattle.rip_server.specs.Links.{link_of};

use rip_http::Conn;

/// A connection that is there.
#[derive(Drop)]
pub struct Connection {
    pub number: u64,
    /// What came on it and was not handled.
    pub conn: Conn,
    pub waits: Option<Wait>,
}

/// A connection waits until the batch of a session is done.
#[derive(Clone, Copy, Debug)]
pub struct Wait {
    /// The ordinal of the session.
    pub session: u32,
    /// The connection is shut behind the answer.
    pub close: bool,
}

/// There is something to handle: the connection waits for nothing, and a message or a refusal stands at its front.
pub fn is_due(connection: &Connection) -> bool
    ensures due { OnTrue result (¬ IsQuiet (link_of connection.now)) }
    ensures quiet { OnFalse result (IsQuiet (link_of connection.now)) }
{
    if connection.waits.is_some() {
        return false;
    }
    connection.conn.ready()
}
