// A client's copies against the messages that were handed on from each channel.
//
// `user_at past ch` is the actor whose open was the last to be handed on from the channel, with no
// close after it. As long as opens and closes come in turn, the copies on channels are those of the
// users.
ghost use Rattle.std.specs.Prelude.{◌≡◌, ◌==◌, ℕ, List, [], reverse, true, false};
ghost use Rattle.protocol_model.specs.Side.{AtServer, AtClient};
ghost use Rattle.connection_model.specs.Feed.{End, Past, Delivered};
ghost use Rattle.connection_model.specs.Bunches.{made_bunch};
ghost use Rattle.connection_model.specs.Copies.{copy_on};
ghost use Rattle.connection_model.specs.Verdict.{lacks_copy};
ghost use Rattle.connection_laws.specs.Run.{IsRun};
ghost use Rattle.connection_laws.specs.Delivered.{Numbered};
ghost use Rattle.connection_laws.specs.InTurn.{user_of, FitsUse};
ghost use Rattle.payload_laws.specs.Applied.{Applied};
ghost use Rattle.payload_laws.specs.Passing.{is_gone};
ghost use Rattle.headline_laws.specs.Agree.{user_at, CopiesAgree, ComesInTurn};
ghost use Rattle.headline_laws.specs.Turns.{ComesNext, FindsNoChannel};

/// Copies and users agree at first, and still do after each payload that comes in turn.
pub fn copies_agree()
    ensures start { CopiesAgree [] }
    ensures step { (past later : Past) (d : Delivered) → Applied past later d → CopiesAgree past
        → ComesInTurn past d d.message → CopiesAgree later }
{}

/// Where they agree, the copy that holds a channel is that of its user.
pub fn holders_are_users()
    ensures { (past : Past) (ch : ℕ) → CopiesAgree past → copy_on past ch ≡ user_at past ch }
{}

/// Where a client was handed on the messages of a server's channel one by one, each as it was made,
/// and its copies agree with the users, the next message finds the copy that it is for, or none
/// where it opens one.
pub fn next_message_has_its_copy()
    ensures user { (end : End) (server client : Past) (ch : ℕ) (done : List Numbered)
        (made : Numbered) → end.side ≡ AtServer → IsRun end server
        → ComesNext server client ch done made
        → (user_at client ch ≡ user_of (reverse done)) × FitsUse (reverse done) made.1 }
    ensures copy { (end : End) (server client : Past) (ch : ℕ) (done : List Numbered)
        (made : Numbered) → end.side ≡ AtServer → IsRun end server → CopiesAgree client
        → (ch == 0) ≡ is_gone made.1 → ComesNext server client ch done made
        → lacks_copy AtClient client [] (made_bunch ch made.0 made.1 0) ≡ false }
{}

/// It comes in turn, where an open or a Gone finds its actor without a channel.
pub fn next_message_comes_in_turn()
    ensures { (end : End) (server client : Past) (ch : ℕ) (done : List Numbered) (made : Numbered)
        (d : Delivered) → end.side ≡ AtServer → IsRun end server
        → ComesNext server client ch done made
        → d.channel ≡ ch → d.reliable ≡ true → d.message ≡ made.1
        → FindsNoChannel client made.1 → ComesInTurn client d d.message }
{}
