ghost use Rattle.rip_law_server.specs.Meant.{RequestsAreMeant};

/// The requests in the bytes that a line stands for are the one that it means, and nothing is left behind it.
pub fn requests_are_meant()
    ensures { RequestsAreMeant }
{}
