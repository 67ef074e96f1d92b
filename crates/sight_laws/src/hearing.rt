// Datagrams and calls of ends that went on with different sights.
ghost use Rattle.std.specs.Prelude.{◌≡◌, ℕ, List};
ghost use Rattle.protocol_model.specs.Side.{Side};
ghost use Rattle.protocol_model.specs.Value.{Arg};
ghost use Rattle.connection_model.specs.Feed.{End, Past};
ghost use Rattle.connection_model.specs.CallAnswers.{answer_of, after_call};
ghost use Rattle.connection_model.specs.Verdict.{verdict_of, after_got};
ghost use Rattle.sight_laws.specs.Differing.{SameButSights};

/// A datagram has the same verdict at both, and leaves them the same but for their sights.
pub fn datagrams_are_heard_the_same()
    ensures keeps { (end : End) (past other : Past) (bytes : List ℕ) → SameButSights past other
        → SameButSights (after_got end past bytes) (after_got end other bytes) }
    ensures verdict { (end : End) (past other : Past) (bytes : List ℕ) → SameButSights past other
        → verdict_of end other bytes ≡ verdict_of end past bytes }
{}

/// A call is answered the same at both, and leaves them the same but for their sights.
pub fn calls_are_answered_the_same()
    ensures keeps { (side : Side) (past other : Past) (actor number : ℕ) (args : List Arg)
        → SameButSights past other
        → SameButSights (after_call side past actor number args)
        (after_call side other actor number args) }
    ensures answer { (side : Side) (past other : Past) (actor number : ℕ) (args : List Arg)
        → SameButSights past other
        → answer_of side other actor number args ≡ answer_of side past actor number args }
{}
