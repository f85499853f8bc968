ghost use Rattle.rip_law_server.specs.Answered.{AskersAreAnswered};
ghost use Rattle.rip_law_server.specs.Paced.{BatchesAreAnswered, PacedAreServed};
ghost use Rattle.rip_law_server.specs.Turned.{TurnsAreLeast};

/// A law, and no work: a client that tells its session batch after batch, each once the one before it is done, has each
/// admitted as the next, until the session ends or memory is wanting.
pub fn paced_clients_are_served()
    ensures { PacedAreServed }
{}

/// A law, and no work: a batch that is done is answered on the connection on which it was asked for, if that is still there,
/// and on no other; the answer has code 200, and tells the batch's number, how it ended its session, if it did, and the calls
/// that it served.
pub fn askers_are_answered()
    ensures there { AskersAreAnswered }
    ensures answer { BatchesAreAnswered }
{}

/// A law, and no work: in each run of the machine what is handled on a connection is handled in the first turn in which its
/// bytes have come and no answer is owed on the connection to what was handled before.
pub fn requests_are_handled_first()
    ensures { TurnsAreLeast }
{}
