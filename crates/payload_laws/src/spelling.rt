// Only a message that was spelled is read.
//
// The bits that a reader accepts are those of the message that it answers, and the rules let that
// message through. Two freedoms are left, and `Spells` says them: an open may name its class by any
// guid under which the reader knows it, and a close tells no actor.
ghost use Rattle.std.specs.Prelude.{◌≡◌, List, [], Bool, true, false, Ok};
ghost use Rattle.protocol_model.specs.Packet.{Bunch, is_bunch};
ghost use Rattle.protocol_model.specs.declared.Version.{Version};
ghost use Rattle.connection_model.specs.Verdict.{is_misplaced};
ghost use Rattle.protocol_model.specs.Payload.{Message, message_bits};
ghost use Rattle.connection_model.specs.Feed.{End, Past, Event};
ghost use Rattle.protocol_model.specs.Side.{AtClient};
ghost use Rattle.table_model.specs.Facts.{IsTable};
ghost use Rattle.table_model.specs.Rules.{Entry};
ghost use Rattle.table_model.specs.Grammar.{table_of};
ghost use Rattle.connection_model.specs.Past.{past_of};
ghost use Rattle.connection_model.specs.PayloadReading.{payload_at};
ghost use Rattle.payload_laws.specs.Passing.{Begins, Passes};
ghost use Rattle.payload_laws.specs.Spelling.{KnowsLimits, Spells};

/// What is read was spelled, up to its last bit.
pub fn payload_was_spelled()
    ensures { (end : End) (past : Past) (first : Bunch) (bits rest : List Bool) (message : Message)
        → KnowsLimits end.side end.table past
        → payload_at end past first bits ≡ Ok (message, rest)
        → (rest ≡ []) × Spells end.side end.table past first bits message }
{}

/// At one reader the bits tell the message.
pub fn bits_tell_the_message()
    ensures { (end : End) (past : Past) (first : Bunch) (one other : Message)
        → Begins one first → Passes end past first.channel one
        → Begins other first → Passes end past first.channel other
        → message_bits one ≡ message_bits other → one ≡ other }
{}

/// A bunch that keeps the rules, and in which a message is read, has the flags of that message.
pub fn flags_tell_the_message()
    ensures { (version : Version) (end : End) (past : Past) (first : Bunch) (bits rest : List Bool)
        (message : Message) → KnowsLimits end.side end.table past
        → is_bunch version first ≡ true → is_misplaced end.side first ≡ false
        → payload_at end past first bits ≡ Ok (message, rest) → Begins message first }
{}

/// Whatever a client heard, forged or not, each class by which it may read has limits, so at a
/// client `KnowsLimits` is no premise.
pub fn clients_know_limits()
    ensures { (entries : List Entry) (end : End) (feed : List Event)
        → IsTable entries → end.table ≡ table_of entries → end.side ≡ AtClient
        → KnowsLimits AtClient end.table (past_of end feed) }
{}
