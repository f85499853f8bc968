use crate::events::Event;

/// Whose members an object has.
#[derive(Clone, Copy, Debug)]
pub enum Owner {
    /// A node of the document, by its number there.
    Node(u32),
    /// An event that was dispatched.
    Dispatched(Event),
    Ripley,
    /// None that the browser answers for.
    Nobody,
}
