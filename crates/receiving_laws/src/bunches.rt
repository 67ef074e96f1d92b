// What a bunch does at the server.
ghost use Rattle.std.specs.Prelude.{◌≡◌};
ghost use Rattle.protocol_model.specs.Side.{AtServer};
ghost use Rattle.protocol_model.specs.Packet.{Bunch};
ghost use Rattle.connection_model.specs.Feed.{End, Past};
ghost use Rattle.connection_model.specs.Verdict.{bunch_heard};
ghost use Rattle.receiving_laws.specs.Receiving.{raws_heard, read_raws};

/// What a bunch does at the server is what its whole payloads do, read one by one: whatever came
/// before, it hands on the same calls, and ends the end for the same cause.
pub fn heard_is_read()
    ensures { (end : End) (past : Past) (b : Bunch) → end.side ≡ AtServer
        → bunch_heard end past b ≡ read_raws end past (raws_heard AtServer past b) }
{}
