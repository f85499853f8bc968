/// Why a session is not put into a table, with its value. The causes are tried in this order.
#[derive(Debug, Drop)]
pub enum InsertRefused<T> {
    /// As many sessions are live as may be.
    Full(T),
    /// As many sessions were opened as a run opens.
    Spent(T),
    /// A session with this identifier was opened before.
    Clash(T),
    Memory(T),
}
