// That joins, edits and calls succeed with ample memory.
ghost use Rattle.std.specs.Prelude.{◌⊎◌};
ghost use Rattle.net_driver.specs.Served.{Served};
ghost use Rattle.net_driver.specs.Serves.{Serves, IsSpent};

use class_layout::Value;
use net_driver::{Arg, CallAnswer, Classes, Driver, Edit, Guid, JoinRefusal, Player, Version};
use std::test::Fail;

/// A player who asks to join, and how it is answered.
#[derive(Clone, Copy)]
struct Asked {
    player: Player,
    version: Version,
    answer: Result<(), JoinRefusal>,
}

fn case_of(player: u16, version: Version, answer: Result<(), JoinRefusal>) -> Asked {
    let player = Player(player);
    Asked {
        player,
        version,
        answer,
    }
}

/// The player is a number of the table, and is answered so.
fn is_answered(driver: &mut Driver<'_>, asked: &Asked) -> bool
    requires { IsSpent driver.old ⊎ ((s : Served) × Serves driver.old s) }
    ensures { IsSpent driver.new ⊎ ((s : Served) × Serves driver.new s) }
{
    if asked.player.0 == 0 || asked.player.0 > 1000 {
        return false;
    }
    driver.join(asked.player, 100_000, asked.version) == asked.answer
}

/// All are answered so, one after the other.
fn are_answered(driver: &mut Driver<'_>, cases: &[Asked]) -> bool
    requires { IsSpent driver.old ⊎ ((s : Served) × Serves driver.old s) }
{
    let mut all = true;
    for case in cases {
        if !is_answered(driver, case) {
            all = false;
        }
    }
    all
}

#[test]
fn a_player_joins_once(rt: HostRuntime) -> Result<(), Fail> {
    let classes = Classes::builtin(rt.alloc())?;
    let mut driver = Driver::new(rt.alloc(), &classes)?;
    let cases = [
        case_of(2, Version::One, Ok(())),
        case_of(1, Version::Two, Ok(())),
        case_of(2, Version::One, Err(JoinRefusal::Joined)),
        case_of(1, Version::One, Err(JoinRefusal::Joined)),
        case_of(1000, Version::Two, Ok(())),
    ];
    assert!(rt; are_answered(&mut driver, &cases));
    Ok(())
}

#[test]
fn two_players_join_and_a_pawn_is_called(rt: HostRuntime) -> Result<(), Fail> {
    let classes = Classes::builtin(rt.alloc())?;
    let mut driver = Driver::new(rt.alloc(), &classes)?;
    driver.join(Player(1), 100_000, Version::One)?;
    driver.join(Player(2), 100_000, Version::Two)?;
    let spawned = driver.edit(Edit::Spawn {
        class: 0,
        x: 3,
        y: 4,
    })?;
    assert!(rt; spawned == Some(Guid(2)));
    // Hurt, the Pawn's second call; nothing is open before a tick.
    let args = [Arg::Scalar(Value::U8(5))];
    let answer = driver.call(Player(2), Guid(2), 2, &args)?;
    assert!(rt; answer == CallAnswer::NotOpen);
    Ok(())
}
