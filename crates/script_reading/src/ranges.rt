// Numbers in range.
ghost use Rattle.std.specs.Prelude.{◌≡◌, IsTrue, IfOk, unwrap_or};
ghost use Rattle.protocol_model.specs.Limits.{player_limit, team_limit};
ghost use Rattle.script_model.specs.ScriptRules as rules;
ghost use Rattle.script_reading.specs.Judging as judging;
ghost use Rattle.script_reading.specs.Judging.{player_of, coordinate_of};
ghost use Rattle.script_reading.specs.KeptIn.{seen_by};
ghost use Rattle.script_reading.specs.ToldBy.{may_own};

use net_core::Player;
use protocol_model::LineWhy;
use protocol_model::limits::{PLAYER_LIMIT, TEAM_LIMIT};

fn from_to(n: i128, low: u32, high: u32) -> bool
    ensures { result ≡ rules.is_from_to low high n }
{
    low as i128 <= n && n <= high as i128
}

/// A player.
#[tactic(auto, unfolding(crate::specs::Judging::player_of))]
pub(crate) fn player(n: i128) -> Result<Player, LineWhy>
    ensures { result ≡ player_of n }
{
    if !from_to(n, 1, PLAYER_LIMIT as u32) {
        return Err(LineWhy::Range);
    }
    Ok(Player(n as u16))
}

/// A player, or 0 for none.
#[tactic(auto, unfolding(crate::specs::Judging::player_of, crate::specs::Judging::within))]
pub(crate) fn owner(n: i128) -> Result<Option<Player>, LineWhy>
    ensures number { seen_by (λ p. unwrap_or p 0) result ≡ judging.within 0 player_limit n }
    ensures player { IfOk result (λ p. IsTrue (may_own p)) }
{
    if n == 0 {
        return Ok(None);
    }
    Ok(Some(player(n)?))
}

/// A team, or 0 for none.
#[tactic(auto, unfolding(crate::specs::Judging::within))]
pub(crate) fn team(n: i128) -> Result<u8, LineWhy>
    ensures { result ≡ judging.within 0 team_limit n }
{
    if !from_to(n, 0, TEAM_LIMIT as u32) {
        return Err(LineWhy::Range);
    }
    Ok(n as u8)
}

/// A number from `low` to `high`.
#[tactic(auto, unfolding(crate::specs::Judging::within))]
pub(crate) fn within(n: i128, low: u32, high: u32) -> Result<u32, LineWhy>
    ensures { result ≡ judging.within low high n }
{
    if !from_to(n, low, high) {
        return Err(LineWhy::Range);
    }
    Ok(n as u32)
}

/// A whole number of 32 bits.
#[tactic(auto, unfolding(crate::specs::Judging::coordinate_of))]
pub(crate) fn coordinate(n: i128) -> Result<i32, LineWhy>
    ensures { result ≡ coordinate_of n }
{
    match i32::try_from(n) {
        Ok(z) => Ok(z),
        Err(_) => Err(LineWhy::Range),
    }
}
