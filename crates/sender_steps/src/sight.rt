// What a player sees.
use class_layout::PairList;
use net_core::{Guid, Items};

/// What a player sees of an actor; the values are those of its visible handles, ascending.
#[derive(Debug, Drop)]
pub struct Seen {
    pub actor: Guid,
    /// Its class, a place in the table counted from 0.
    pub class: u16,
    /// The player owns it.
    pub owns: bool,
    /// It is relevant to the player.
    pub relevant: bool,
    pub destroyed: bool,
    pub dormant: bool,
    /// How often it was flushed.
    pub flush: u64,
    pub values: PairList,
}

/// What a player sees, ascending by actor.
pub type Sight = Items<Seen>;
