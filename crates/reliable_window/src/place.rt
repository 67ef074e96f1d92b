// Where the number of an item stands.

/// Where the number of an item stands among those received.
#[derive(Clone, Copy, Debug)]
pub enum Place {
    /// It was received before.
    Repeat,
    /// It is the next.
    Next,
    /// It is above the next, and wasn't received.
    Ahead(u64),
}
