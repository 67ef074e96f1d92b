// Why players don't join.

/// Why a player doesn't join, in the order in which the reasons are looked for.
#[derive(Clone, Copy, Debug, PartialEq, Eq)]
pub enum JoinRefusal {
    /// The player joined before.
    Joined,
    /// 64 players joined.
    ServerFull,
    /// There was no memory for the connection.
    Memory,
}
