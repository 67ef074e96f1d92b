// Words for conditions, ways of calls and relevancies.
ghost use Rattle.std.specs.Prelude.{◌≡◌, if◌then◌else◌, unsigned_abs, Ok, Err};
ghost use Rattle.protocol_model.specs.declared.Reach.TheVariants.{Near};
ghost use Rattle.protocol_model.specs.Limits.{cull_limit};
ghost use Rattle.table_model.specs.Rules.{is_from_to, reach_of};
ghost use Rattle.table_model.specs.Words.{meaning_in, conditions, ways};

use protocol_model::limits::CULL_LIMIT;
use protocol_model::{Cond, Reach, Way};
use table_model::TableWhy;

/// The condition that the word names; `None` exactly where it names none.
pub fn condition_of(text: &str) -> Option<Cond>
    ensures { result ≡ meaning_in conditions text.now }
{
    match text {
        "none" => Some(Cond::Always),
        "initial" => Some(Cond::InitialOnly),
        "owner" => Some(Cond::OwnerOnly),
        "skip" => Some(Cond::SkipOwner),
        "initialowner" => Some(Cond::InitialOrOwner),
        "custom" => Some(Cond::Custom),
        _ => None,
    }
}

/// The way that a call of this kind goes; `None` exactly where there is no such kind.
pub fn way_of(text: &str) -> Option<Way>
    ensures { result ≡ meaning_in ways text.now }
{
    match text {
        "server" => Some(Way::Server),
        "client" => Some(Way::Client),
        "multicast" => Some(Way::Multicast),
        _ => None,
    }
}

// Actors of the class are relevant at any distance, so that none may be given.
fn without_distance(reach: Reach, cull: i128) -> Result<Reach, TableWhy>
    ensures { result ≡ (if is_from_to 0 0 cull then Ok reach else Err TableWhy.Range) }
{
    if cull == 0 {
        Ok(reach)
    } else {
        Err(TableWhy::Range)
    }
}

fn near(cull: i128) -> Result<Reach, TableWhy>
    ensures { result ≡ (if is_from_to 1 cull_limit cull then Ok (Near (unsigned_abs cull))
        else Err TableWhy.Range) }
{
    if 1 <= cull && cull <= i128::from(CULL_LIMIT) {
        Ok(Reach::Near(cull as u32))
    } else {
        Err(TableWhy::Range)
    }
}

/// The reach of a class with this relevancy and cull distance.
///
/// `BadType` comes exactly where there is no such relevancy, and `Range` where the distance isn't
/// 1 to 50,000 at `near`, or isn't 0 at `always` and `owner`.
pub fn reach_of(relevancy: &str, cull: i128) -> Result<Reach, TableWhy>
    ensures { result ≡ reach_of relevancy.now cull }
{
    match relevancy {
        "always" => without_distance(Reach::Always, cull),
        "near" => near(cull),
        "owner" => without_distance(Reach::Owner, cull),
        _ => Err(TableWhy::BadType),
    }
}
