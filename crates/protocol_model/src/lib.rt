// The words of the protocol that every crate shares.
//
// The definitions in `specs/` say what numbers, packets, payloads, classes and worlds are, and the
// plain enums below are spoken by definitions and code alike, so no crate maps one to the other.
// It stands on nothing, has no logic of its own, and changes seldom: the crates that implement a
// part cite it, and hand its enums on.
#![tactic(auto)]

pub mod laws;
pub mod limits;

/// The packet's version, which both ends of a connection share.
///
/// Version one has acknowledgements among a packet's entries. Version two has a history of the
/// packets taken in the head of each packet, after Unreal's packet notification.
#[derive(Clone, Copy, Debug, PartialEq, Eq)]
pub enum Version {
    One,
    Two,
}

/// Where a bunch stands in its payload.
///
/// `Lone` is spelled as first and last at once, and is refused wherever it arrives.
#[derive(Clone, Copy, Debug, PartialEq, Eq)]
pub enum Part {
    Whole,
    First,
    Middle,
    Last,
    Lone,
}

/// Why a packed number is refused.
#[derive(Clone, Copy, Debug, PartialEq, Eq)]
pub enum NumRefusal {
    /// A group that is needed isn't whole.
    Short,
    /// The spelling isn't the shortest one, or the number isn't below 2^32.
    Padded,
}

/// The rule of the packet's grammar that bytes break.
#[derive(Clone, Copy, Debug, PartialEq, Eq)]
pub enum Why {
    /// There are no bytes.
    Empty,
    /// There are more than 1,024 bytes.
    TooLong,
    /// The last byte is 0, so there is no end bit.
    NoEnd,
    /// A control bunch neither opens nor closes, or does both.
    Control,
    /// A reserved bit is 1.
    Reserved,
    /// A bunch that opens is unreliable.
    OpenUnreliable,
    /// A bunch that closes is unreliable.
    CloseUnreliable,
    /// A bunch that doesn't open has exports.
    ExportsUnopened,
    /// A part of a payload is unreliable.
    PartialUnreliable,
    /// The kind of a reliable bunch is neither 1 nor 2.
    BadKind,
    /// A field isn't whole.
    Short,
    /// A packed channel isn't spelled in the shortest way. In version two alone.
    Padded,
    /// A channel is 32,768 or more. In version two alone.
    Wide,
}

/// Why a part of a payload doesn't join those before it.
#[derive(Clone, Copy, Debug, PartialEq, Eq)]
pub enum PartWhy {
    /// It has more than 7,000 bits.
    Oversize,
    /// It is marked as first and last at once.
    Lone,
    /// A part closes the channel.
    Flags,
    /// A first part comes while one is kept.
    Restart,
    /// A whole reliable bunch comes while a first part is kept.
    Inside,
    /// A middle or last part comes while no first part is kept.
    NoFirst,
    /// A middle or last part opens the channel.
    Opens,
    /// A first or middle part hasn't 7,000 bits, or a last part has none.
    FewBits,
    /// It is the eleventh part.
    TooMany,
}

/// Why a datagram closes its connection.
#[derive(Clone, Copy, Debug, PartialEq, Eq)]
pub enum Cause {
    /// A packet is acknowledged that wasn't sent; `sent` is the last one that was.
    BadAck { acked: i64, sent: u64 },
    /// A bunch has no place on its channel.
    BadChannel { channel: u16 },
    /// A part doesn't join those before it.
    BadPart { channel: u16, why: PartWhy },
    /// A payload breaks a rule at this bit.
    BadPayload { channel: u16, at: usize },
    /// A guid is named that isn't known.
    UnknownGuid { guid: u32 },
    /// A guid is told with another meaning than before.
    Clash { guid: u32 },
    /// 512 bunches are held already.
    Overrun { channel: u16 },
    /// 65,536 names are known already.
    NamesFull,
    /// 8,192 copies are held already.
    ActorsFull,
}

/// What an end says of a datagram.
#[derive(Clone, Copy, Debug, PartialEq, Eq)]
pub enum Verdict {
    /// It is a new packet, and each of its entries was taken.
    Taken { number: u64 },
    /// It is no packet: the first broken rule, and the bit where it is broken.
    Malformed { at: usize, why: Why },
    /// Its number isn't above the last one taken.
    Old { number: i64, last: u64 },
    /// An entry broke a rule, and the connection is closed.
    Closed(Cause),
    /// The end was dead before.
    Dead,
}

/// What is known of a packet that was sent.
#[derive(Clone, Copy, Debug, PartialEq, Eq)]
pub enum Fate {
    Open,
    Arrived,
    Lost,
}

/// When a property is replicated, after Unreal's `ELifetimeCondition`.
#[derive(Clone, Copy, Debug, PartialEq, Eq)]
pub enum Cond {
    Always,
    InitialOnly,
    OwnerOnly,
    SkipOwner,
    InitialOrOwner,
    /// While the actor's switch for the property is on.
    Custom,
}

/// Which whole numbers a value may be, and how they are spelled.
#[derive(Clone, Copy, Debug, PartialEq, Eq)]
pub enum Kind {
    Bool,
    U8,
    I32,
    U32,
    I64,
    /// 0 up to this many less one.
    Enum(u16),
    Packed,
    Guid,
    /// At most so many bytes; of arguments alone.
    Bytes(u16),
}

/// To whom an actor of a class is relevant, before any exception for its owner or its team.
#[derive(Clone, Copy, Debug, PartialEq, Eq)]
pub enum Reach {
    Always,
    /// To viewers at most this far away.
    Near(u32),
    Owner,
}

/// Which way a call goes.
#[derive(Clone, Copy, Debug, PartialEq, Eq)]
pub enum Way {
    /// From the owning client to the server.
    Server,
    /// From the server to the owning client.
    Client,
    /// From the server to each client.
    Multicast,
}

/// How a call is answered by the end that makes it.
#[derive(Clone, Copy, Debug, PartialEq, Eq)]
pub enum CallAnswer {
    Queued,
    Dead,
    NotOpen,
    NotOwner,
    WindowFull,
}

/// What is to be done with a call that was handed over.
#[derive(Clone, Copy, Debug, PartialEq, Eq)]
pub enum CallVerdict {
    Run,
    NotOwner,
    Stale,
}

/// Why a line of a script is refused, in the order in which the reasons are looked for.
#[derive(Clone, Copy, Debug, PartialEq, Eq)]
pub enum LineWhy {
    /// The line has over 16,384 bytes, or the script over 67,108,864.
    TooLong,
    /// A byte isn't ASCII.
    NotText,
    /// No line has this word, number of fields or spelling.
    Shape,
    /// The line has no place in a live script.
    Place,
    /// A number is out of range.
    Range,
    /// The player hasn't joined.
    NoPlayer,
    /// The player joined before.
    Taken,
    /// There is no class of that name.
    NoClass,
    /// The actor was never spawned, or is destroyed.
    NoActor,
    /// There is no such property or call.
    NoName,
    /// The call goes the other way.
    Kind,
    /// A value or an argument isn't one of its kind.
    Value,
    /// It is the 65th join or the 8,193rd spawn.
    Full,
}
