// When one actor was shown and served.
ghost use Rattle.std.specs.Prelude.{◌≡◌, ◌≤◌, ◌-◌, ◌+◌, ◌<◌, ◌^◌, ◌∷◌, ◌++◌, [], ℕ, List, true, false, Some, None, unwrap_or};
ghost use Rattle.protocol_model.specs.Sight.{Seen};
ghost use Rattle.protocol_model.specs.Payload.{Message};
ghost use Rattle.connection_model.specs.Feed.{Past, Deed, Item, tick_count, is_relevant_in};
ghost use Rattle.connection_model.specs.Bunches.{after_making};
ghost use Rattle.connection_model.specs.Items.{last_service, first_sight, is_open_made, is_update_of};
ghost use Rattle.connection_model.specs.CallAnswers.{is_seen_owned};
ghost use Rattle.connection_model.specs.Pack.{idle_ticks};
ghost use Rattle.sender_laws.specs.Acts.{are_sent, sent_more};
ghost use Rattle.sender_laws.specs.Items.{has_update};
ghost use Rattle.sender_records.specs.Service.{KeepsService, shows_owned, fresh_service, service_shown};

/// When one actor was shown and served, by ticks of its connection counted from 1. A tick whose
/// sight doesn't have the actor leaves all of it.
#[derive(Clone, Copy, Debug)]
pub struct Service {
    /// The last tick whose sight had it as relevant, 0 where there is none.
    pub relevant_at: u64,
    /// The last tick whose sight showed it as owned, 0 where there is none.
    pub owned_at: u64,
    /// The tick of its last open or update, or else the one before the first sight.
    pub served: u64,
}

impl Service {
    /// It was never shown.
    pub fn new() -> Service
        ensures fresh { result ≡ fresh_service }
        ensures keeps { (actor : ℕ) → KeepsService [] actor result }
    {
        Service {
            relevant_at: 0,
            owned_at: 0,
            served: 0,
        }
    }

    /// A tick began, and this is how its sight shows the actor.
    pub fn shows(&mut self, tick: u64, relevant: bool, owns: bool)
        ensures keeps { (past : Past) (sight : List Seen) (actor : ℕ)
            → KeepsService past actor self.old → tick ≡ tick_count past + 1
            → is_relevant_in sight actor ≡ relevant → shows_owned sight actor ≡ owns
            → KeepsService (Deed.Ticked tick sight ∷ past) actor self.new }
    {
        *self = shown(*self, tick, relevant, owns);
    }

    /// An open of the actor, which was relevant, is made in this tick, below packets without an
    /// update of it, or an update is packed.
    pub fn serves(&mut self, tick: u64)
        ensures opened { (sent past : Past) (channel actor : ℕ) (message : Message)
            → KeepsService (sent ++ past) actor self.old → are_sent sent ≡ true
            → has_update actor sent ≡ false → is_open_made actor message ≡ true
            → tick ≡ tick_count past → 1 ≤ self.old.relevant_at
            → KeepsService (sent ++ after_making past channel message) actor self.new }
        ensures updated { (packet actor : ℕ) (items : List Item) (item : Item) (past : Past)
            → KeepsService (Deed.Sent packet tick items ∷ past) actor self.old
            → is_update_of actor item ≡ true → 1 ≤ self.old.relevant_at
            → KeepsService (sent_more packet tick items item past) actor self.new }
    {
        self.served = tick;
    }

    /// How many ticks in a row, up to this one, didn't have the actor as relevant.
    pub fn idle(&self, tick: u64) -> u64
        ensures { (past : Past) (actor : ℕ) → KeepsService past actor self.now
            → tick ≡ tick_count past → result ≡ idle_ticks past actor }
    {
        tick.saturating_sub(self.relevant_at)
    }

    /// The sight of this tick shows the actor as owned.
    pub fn owned(&self, tick: u64) -> bool
        ensures { (past : Past) (actor : ℕ) → KeepsService past actor self.now
            → tick ≡ tick_count past → result ≡ is_seen_owned past actor }
    {
        self.owned_at != 0 && self.owned_at == tick
    }

    /// The ticks since the last service, or since the tick before the first sight.
    pub fn waited(&self, tick: u64) -> u64
        ensures { (past : Past) (actor : ℕ) → KeepsService past actor self.now
            → tick ≡ tick_count past → result
            ≡ tick_count past - unwrap_or (last_service past actor) (first_sight past actor - 1) }
    {
        tick.saturating_sub(self.served)
    }
}

/// As it is kept once a sight shows the actor so.
fn shown(service: Service, tick: u64, relevant: bool, owns: bool) -> Service
    ensures { result ≡ service_shown service tick relevant owns }
{
    Service {
        relevant_at: if relevant { tick } else { service.relevant_at },
        owned_at: if owns { tick } else { service.owned_at },
        served: if relevant && service.relevant_at == 0 {
            tick.saturating_sub(1)
        } else {
            service.served
        },
    }
}
