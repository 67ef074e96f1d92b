// The channel of one actor.
ghost use Rattle.std.specs.Prelude.{◌≡◌, ◌≤◌, ◌∷◌, ◌++◌, [], ℕ, List, true, false, Some, None, ◌&&◌, ◌==◌, unwrap_or, option_map, ◌⊎◌};
ghost use Rattle.protocol_model.specs.Value.{Class, Pair, Segment};
ghost use Rattle.protocol_model.specs.Payload.{Opens, Closes, Gone};
ghost use Rattle.connection_model.specs.Feed.{Past};
ghost use Rattle.connection_model.specs.Bunches.{after_making, span};
ghost use Rattle.connection_model.specs.State.{is_open, is_asleep};
ghost use Rattle.sender_laws.specs.Acts.{ArrivesMade, are_sent};
ghost use Rattle.sender_laws.specs.States.{flush_seen};
ghost use Rattle.sender_records.specs.Life.{KeepsLife, Arrives, fresh_life, life_cleared, state_value};

use crate::state::ActorState;

/// The channel of one actor.
#[derive(Clone, Copy, Debug)]
pub struct Life {
    /// Where the channel stands.
    pub state: ActorState,
    /// The index that the actor holds, while it is opening, opened or closing.
    pub index: Option<u16>,
    /// A close that is under way puts it to sleep.
    pub sleeps: bool,
    /// An open was ever made.
    pub opened: bool,
    /// The flush number kept at the last dormant close.
    pub flush: Option<u64>,
}

impl Life {
    /// Nothing was made.
    pub fn new() -> Life
        ensures fresh { result ≡ fresh_life }
        ensures keeps { (actor : ℕ) → KeepsLife [] actor result }
    {
        Life {
            state: ActorState::None,
            index: None,
            sleeps: false,
            opened: false,
            flush: None,
        }
    }

    /// Asleep, and dormant with the flush number that was kept at the last dormant close.
    pub fn is_quiet(&self, dormant: bool, flush: u64) -> bool
        ensures { result ≡ (is_asleep (state_value self.now.state) && dormant
            && unwrap_or (option_map (λ kept. kept == flush) self.now.flush) false) }
    {
        self.state == ActorState::Asleep && dormant && self.flush == Some(flush)
    }

    /// An open is made on an index that is clear, below packets sent in this tick.
    pub fn opens(&mut self, index: u16)
        ensures keeps { (sent past : Past) (exports : List Segment) (actor : ℕ) (class : Class)
            (values : List Pair) → KeepsLife (sent ++ past) actor self.old
            → are_sent sent ≡ true → ArrivesMade (sent ++ past) → span (sent ++ past) index ≡ 0
            → KeepsLife (sent ++ after_making past index (Opens exports actor class values))
            actor self.new }
        ensures state { self.new.state ≡ ActorState.Opening }
    {
        *self = Life {
            state: ActorState::Opening,
            index: Some(index),
            sleeps: false,
            opened: true,
            flush: self.flush,
        };
    }

    /// A close is made on the index that the actor holds; a dormant one keeps the flush number.
    pub fn closes(&mut self, sleeps: bool, flush: u64)
        ensures keeps { (past : Past) (actor ch : ℕ) → KeepsLife past actor self.old
            → self.old.index ≡ Some ch → ArrivesMade past
            → (sleeps ≡ true → flush_seen past actor ≡ Some flush)
            → KeepsLife (after_making past ch (Closes actor sleeps)) actor self.new }
        ensures state { self.new.state ≡ ActorState.Closing }
    {
        self.state = ActorState::Closing;
        self.sleeps = sleeps;
        if sleeps {
            self.flush = Some(flush);
        }
    }

    /// A Gone is made.
    pub fn goes(&mut self)
        ensures keeps { (past : Past) (actor ch : ℕ) → KeepsLife past actor self.old
            → KeepsLife (after_making past ch (Gone actor)) actor self.new }
        ensures state { self.new.state ≡ ActorState.None }
    {
        self.state = ActorState::None;
        self.index = None;
    }

    /// More has arrived; `clear` says whether all has arrived on the index that the actor holds.
    pub fn hears(&mut self, clear: bool)
        ensures keeps { (past later : Past) (actor : ℕ) → KeepsLife past actor self.old
            → Arrives past later actor clear → KeepsLife later actor self.new }
        ensures index { (self.new.index ≡ self.old.index) ⊎ (self.new.index ≡ None) }
        ensures same_open { is_open (state_value self.new.state)
            ≡ is_open (state_value self.old.state) }
    {
        if clear {
            *self = cleared(*self);
        }
    }
}

/// All has arrived on the index.
fn cleared(life: Life) -> Life
    ensures { result ≡ life_cleared life }
{
    match life.state {
        ActorState::Opening => Life {
            state: ActorState::Opened,
            ..life
        },
        ActorState::Closing => Life {
            state: if life.sleeps {
                ActorState::Asleep
            } else {
                ActorState::None
            },
            index: None,
            ..life
        },
        ActorState::None | ActorState::Opened | ActorState::Asleep => life,
    }
}
