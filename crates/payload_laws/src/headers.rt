// The bunches of a message have headers that keep the rules, and stand where the reader wants them.
ghost use Rattle.std.specs.Prelude.{◌≡◌, ◌<◌, ◌==◌, ℕ, List, Bool, true, false, length};
ghost use Rattle.protocol_model.specs.declared.Version.{Version};
ghost use Rattle.protocol_model.specs.Side.{Side, AtServer, AtClient};
ghost use Rattle.protocol_model.specs.Value.{Call, Arg};
ghost use Rattle.protocol_model.specs.Limits.{bunch_bits_limit};
ghost use Rattle.protocol_model.specs.Packet.{channel_limit, is_bunch};
ghost use Rattle.protocol_model.specs.Payload.{Message, Calls, message_bits};
ghost use Rattle.connection_model.specs.Bunches.{made_bunch};
ghost use Rattle.connection_model.specs.Items.{loose_bunch};
ghost use Rattle.connection_model.specs.Verdict.{is_misplaced};
ghost use Rattle.payload_laws.specs.Passing.{is_gone};

/// Each part of a message has a header that keeps the rules, and so has an unreliable message of
/// fewer than 8,192 bits.
pub fn bunches_can_be_spelled()
    ensures made { (version : Version) (ch n : ℕ) (message : Message) (i : ℕ)
        → ch < channel_limit version → is_bunch version (made_bunch ch n message i) ≡ true }
    ensures loose { (version : Version) (ch : ℕ) (message : Message)
        → ch < channel_limit version → length (message_bits message) < bunch_bits_limit
        → is_bunch version (loose_bunch ch message) ≡ true }
{}

/// Each part is in its place at the client, where a Gone goes on channel 0 and all else elsewhere;
/// the parts of a call are at the server; and an unreliable message is at either end.
pub fn bunches_are_placed()
    ensures client { (ch n : ℕ) (message : Message) (i : ℕ) → (ch == 0) ≡ is_gone message
        → is_misplaced AtClient (made_bunch ch n message i) ≡ false }
    ensures server { (ch n actor number : ℕ) (call : Call) (args : List Arg) (i : ℕ)
        → (ch == 0) ≡ false
        → is_misplaced AtServer (made_bunch ch n (Calls actor number call args) i) ≡ false }
    ensures loose { (side : Side) (ch : ℕ) (message : Message) → (ch == 0) ≡ false
        → is_misplaced side (loose_bunch ch message) ≡ false }
{}
