// Edits, how they are refused, and how an actor looks.
use class_layout::Value;
use net_core::{Guid, Handle, Memory, Player};
use thiserror::Error;

/// A change to the world.
#[derive(Clone, Copy, Debug, PartialEq, Eq)]
pub enum Edit {
    /// A new actor of the class, a place in the table counted from 0.
    Spawn {
        class: u16,
        x: i32,
        y: i32,
    },
    /// The actor's end; its guid is never used again.
    Destroy {
        actor: Guid,
    },
    /// A new value of a property; handle 1 is x, 2 is y.
    Set {
        actor: Guid,
        prop: Handle,
        value: Value,
    },
    /// A new owner, or none.
    Own {
        actor: Guid,
        player: Option<Player>,
    },
    /// Where a player looks from.
    View {
        player: Player,
        x: i32,
        y: i32,
    },
    /// Whether the actor is relevant to the player for a reason of the game's own.
    Add {
        actor: Guid,
        player: Player,
        on: bool,
    },
    /// The actor falls asleep for every connection.
    Dormant {
        actor: Guid,
    },
    /// The actor wakes.
    Wake {
        actor: Guid,
    },
    /// What changed is to be sent once, though the actor is dormant.
    Flush {
        actor: Guid,
    },
    /// The switch of a property whose condition is custom.
    Switch {
        actor: Guid,
        prop: Handle,
        on: bool,
    },
    /// The player's team, 0 for none.
    Team {
        player: Player,
        team: u8,
    },
    /// The team that the actor is given to, 0 for none.
    Give {
        actor: Guid,
        team: u8,
    },
}

/// How an actor stands.
#[derive(Clone, Copy, Debug, PartialEq, Eq)]
pub struct Look {
    /// Its class, a place in the table counted from 0.
    pub class: u16,
    /// It isn't destroyed.
    pub alive: bool,
    pub x: i32,
    pub y: i32,
    pub owner: Option<Player>,
    pub dormant: bool,
    /// How often it was flushed.
    pub flush: u64,
}

/// Why an edit isn't taken, in the order in which the reasons are looked for.
#[derive(Clone, Copy, Debug, PartialEq, Eq, Error)]
pub enum EditRefusal {
    /// The actor was never spawned, or is destroyed.
    #[error("no living actor of that guid")]
    NoActor,
    /// There is no such class, player, team or property, or the value isn't one of its kind.
    #[error("no such class, player, team or property, or a value of another kind")]
    OutOfRange,
    /// It is the 8,193rd spawn.
    #[error("no room for another actor")]
    ActorsFull,
    /// There is no memory for an edit that would be taken.
    #[error("no memory for the edit")]
    Memory,
}

impl From<Memory> for EditRefusal {
    ghost use Rattle.std.specs.Prelude.{◌≡◌};
    ghost use Rattle.world_table.specs.declared.edit.EditRefusal.TheVariants as refusal;

    ghost from_gives = { λ _ e. e ≡ refusal.Memory };

    fn from(_memory: Memory) -> EditRefusal {
        EditRefusal::Memory
    }
}
