// Where the part ends that a turn hears.
ghost use Rattle.std.specs.Prelude.{◌≡◌, ◌<◌, ◌∷◌, ◌++◌, [], ℕ, List, length, find, true, false, None};
ghost use Rattle.live_model.specs.Outside.{Heard, Datagram, Quiet, Peer};
ghost use Rattle.live_model.specs.Caller.{Caller, is_answer, welcomes};
ghost use Rattle.live_laws.specs.Stepwise.{AreDatagrams, IsWhole, IsWholeFor};

/// A turn's part ends with a Quiet behind fewer than 1,024 datagrams, or with the 1,024th of them.
pub fn quiet_or_enough_end_a_part()
    ensures quiet { (part : List Heard) → AreDatagrams part → length part < 1024
        → IsWhole (part ++ Quiet ∷ []) }
    ensures enough { (part : List Heard) → AreDatagrams part → length part ≡ 1024
        → IsWhole part }
{}

/// The part of a client that isn't welcomed ends with the first Failure from its server, where no
/// Welcome came before.
pub fn failure_ends_a_part()
    ensures { (c : Caller) (part : List Heard) (from : Peer) (bytes : List ℕ)
        → c.welcomed ≡ false → AreDatagrams part → length part < 1024
        → find (is_answer c) part ≡ None → is_answer c (Datagram from bytes) ≡ true
        → welcomes c (Datagram from bytes) ≡ false
        → IsWholeFor c (part ++ Datagram from bytes ∷ []) }
{}
