// Changes of one actor's record.
ghost use Rattle.std.specs.Prelude.{◌≡◌, ◌<◌, ◌^◌, true, false, IfOk, IfErr};
ghost use Rattle.protocol_model.specs.World.{is_player as numbers_player};
ghost use Rattle.world_table.specs.Answers.{may_own};
ghost use Rattle.world_table.specs.RecordChanges.{record_after};

use crate::actor::Actor;
use crate::edit::EditRefusal;
use net_core::Player;
use protocol_model::limits::{PLAYER_LIMIT, TEAM_LIMIT};

/// What becomes of an actor's record.
#[derive(Clone, Copy)]
pub(crate) enum Change {
    /// The actor is destroyed.
    End,
    Owner(Option<Player>),
    /// It falls asleep, or wakes.
    Dormant(bool),
    /// It is flushed once more.
    Flush,
    /// The team that it is given to, 0 for none.
    Given(u8),
}

/// The record after the change, or why the change isn't taken.
pub(crate) fn changed(kept: &Actor, change: Change) -> Result<Actor, EditRefusal>
    requires { kept.now.look.flush < 2 ^ 61 }
    ensures { result ≡ record_after kept.now change }
{
    let mut after = *kept;
    match change {
        Change::End => after.look.alive = false,
        Change::Owner(player) => after.look.owner = owner(player)?,
        Change::Dormant(dormant) => after.look.dormant = dormant,
        Change::Flush => after.look.flush += 1,
        Change::Given(team) => {
            if team > TEAM_LIMIT {
                return Err(EditRefusal::OutOfRange);
            }
            after.given = team;
        }
    }
    Ok(after)
}

/// There is a player of that number.
pub(crate) fn is_player(player: Player) -> bool
    ensures { result ≡ numbers_player player }
{
    player.0 >= 1 && player.0 <= PLAYER_LIMIT
}

/// No owner, or the player that is named, which has to be one.
fn owner(player: Option<Player>) -> Result<Option<Player>, EditRefusal>
    ensures ok { IfOk result (λ owner. (may_own player ≡ true) × (owner ≡ player)) }
    ensures err { IfErr result (λ why. (may_own player ≡ false) × (why ≡ EditRefusal.OutOfRange)) }
{
    match player {
        Some(named) => if is_player(named) {
            Ok(Some(named))
        } else {
            Err(EditRefusal::OutOfRange)
        },
        None => Ok(None),
    }
}
