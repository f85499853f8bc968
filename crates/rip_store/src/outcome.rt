use rip_data::Datum;

/// What a call does to a store.
#[derive(Drop)]
pub(crate) enum Write {
    Nothing,
    Keep(Vec<u8>, Datum),
    Push(Vec<u8>, Datum),
    Remove(Vec<u8>),
}

/// How many elements a list has, and the bytes of its text.
#[derive(Clone, Copy, Debug)]
pub(crate) struct ListSize {
    pub count: usize,
    pub length: usize,
}

/// What a call gives that is not refused.
#[derive(Drop)]
pub(crate) struct Done {
    pub write: Write,
    pub reply: Datum,
}
