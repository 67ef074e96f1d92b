// The state of an actor's channel.
ghost use Rattle.std.specs.Prelude.{◌≡◌};
ghost use Rattle.connection_model.specs.State.{is_open, is_opened};
ghost use Rattle.sender_laws.specs.States.{is_pending};
ghost use Rattle.sender_records.specs.Life.{state_value};

/// Where the channel of an actor stands.
///
///                open made       all has arrived      close made        all has arrived
///     None, Asleep -----> Opening -------------> Opened -------> Closing -----> None, or, after
///                            |                                     ^            a dormant close,
///                            +----------- close made --------------+            Asleep
///     Asleep ---Gone made---> None
#[derive(Clone, Copy, Debug, PartialEq, Eq)]
pub enum ActorState {
    /// No channel: nothing was made, or a close or a Gone was the last.
    None,
    /// An open is made, and not all of it has arrived.
    Opening,
    /// The whole open has arrived.
    Opened,
    /// A close is made, and not all on the index has arrived.
    Closing,
    /// A dormant close has arrived.
    Asleep,
}

impl ActorState {
    /// An open is made, and no close after it.
    pub fn is_open(self) -> bool
        ensures { result ≡ is_open (state_value self) }
    {
        match self {
            ActorState::Opening | ActorState::Opened => true,
            ActorState::None | ActorState::Closing | ActorState::Asleep => false,
        }
    }

    /// The whole open has arrived, and no close is made after it.
    pub fn is_opened(self) -> bool
        ensures { result ≡ is_opened (state_value self) }
    {
        match self {
            ActorState::Opened => true,
            ActorState::None | ActorState::Opening | ActorState::Closing | ActorState::Asleep =>
                false,
        }
    }

    /// An open or a close is under way.
    pub fn is_pending(self) -> bool
        ensures { result ≡ is_pending (state_value self) }
    {
        match self {
            ActorState::Opening | ActorState::Closing => true,
            ActorState::None | ActorState::Opened | ActorState::Asleep => false,
        }
    }
}
