// Whole payloads, as they go to the layer above.
use bit_io::Bits;
use net_core::Items;
use protocol_model::Cause;

/// A whole payload that was received, with the flags of its bunch or of its first part.
#[derive(Debug, Drop)]
pub struct Message {
    /// The channel's index.
    pub channel: u16,
    /// The channel begins with this payload.
    pub opens: bool,
    /// The channel ends with it.
    pub closes: bool,
    /// The close puts the actor to sleep, and its copy stays.
    pub sleeps: bool,
    /// The payload begins with names that it introduces.
    pub exports: bool,
    /// It came in reliable bunches.
    pub reliable: bool,
    /// Its bits, at most 70,000.
    pub bits: Bits,
}

/// Whole payloads in order.
pub type MessageList = Items<Message>;

/// What a bunch hands on, and the rule that it breaks after that.
#[derive(Debug, Drop)]
pub struct Delivered {
    /// The payloads, in the order in which they were made.
    pub whole: MessageList,
    /// The rule that is broken after them, if one is.
    pub cause: Option<Cause>,
}
