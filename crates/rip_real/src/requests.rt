//! How many requests of a connection may be unanswered, counted by their heads alone.

/// How much of an empty line has come: a line feed, and behind it a carriage return.
#[derive(Clone, Copy, PartialEq, Eq)]
enum Mark {
    None,
    Feed,
    Return,
}

/// The requests of a connection that came and were not answered, at most. Each has a head, which ends with an empty line
/// (RFC 9112 section 2.1), and so no more requests came than empty lines. A body may have empty lines too: then more are
/// counted than came.
#[derive(Drop)]
pub struct Requests {
    open: u64,
    mark: Mark,
}

impl Requests {
    /// None came.
    pub fn new() -> Requests {
        Requests {
            open: 0,
            mark: Mark::None,
        }
    }

    /// Whether one may be unanswered.
    pub fn are_open(&self) -> bool {
        self.open > 0
    }

    /// All that came are answered.
    pub fn settle(&mut self) {
        self.open = 0;
    }

    /// One more was answered.
    pub fn answer(&mut self) {
        self.open = self.open.saturating_sub(1);
    }

    /// Bytes came.
    pub fn hear(&mut self, bytes: &[u8]) {
        for byte in bytes {
            self.hear_byte(*byte);
        }
    }

    /// A byte came. A line feed behind a line feed, or behind one and a carriage return, ends an empty line.
    fn hear_byte(&mut self, byte: u8) {
        self.mark = match (byte, self.mark) {
            (b'\n', Mark::None) => Mark::Feed,
            (b'\n', _) => {
                self.open = self.open.saturating_add(1);
                Mark::None
            }
            (b'\r', Mark::Feed) => Mark::Return,
            _ => Mark::None,
        };
    }
}
