use rip_base::Report;

/// What a user does, as a client is told it.
#[derive(Debug, Drop)]
pub enum Gesture {
    /// An event.
    Event(Report),
    /// Nothing, so that what waits is sent.
    Flush,
}
