// What a bunch does at a client, and what stands after it.
ghost use Rattle.std.specs.Prelude.{◌≡◌, ◌∷◌, ℕ, List, None, []};
ghost use Rattle.protocol_model.specs.Side.{AtClient};
ghost use Rattle.protocol_model.specs.Packet.{Bunch};
ghost use Rattle.connection_model.specs.Feed.{End, Past, Entry, Deed, Delivered};
ghost use Rattle.connection_model.specs.Windows.{received_on};
ghost use Rattle.connection_model.specs.Copies.{delivered_of};
ghost use Rattle.connection_model.specs.Verdict.{bunch_heard};
ghost use Rattle.receiving_laws.specs.Holders.{is_copied_on};
ghost use Rattle.receiving_laws.specs.Receiving.{raws_heard, read_raws};
ghost use Rattle.client_laws.specs.Holding.{Holds, IsProper, ComeInTurn, AllCame};

/// What a bunch does at the client, while a packet is taken, is what its whole payloads do, read one
/// by one.
pub fn heard_is_read()
    ensures { (end : End) (m : ℕ) (entries : List Entry) (handed : List Delivered)
        (before : Past) (b : Bunch)
        → end.side ≡ AtClient → Holds (Deed.Took m entries handed ∷ before) → IsProper b
        → bunch_heard end (Deed.Took m entries handed ∷ before) b
        ≡ read_raws end (Deed.Took m entries handed ∷ before)
        (raws_heard AtClient (Deed.Took m entries handed ∷ before) b) }
{}

/// Each payload of a bunch opens its channel where no copy holds it, and closes it where one does.
pub fn payloads_come_in_turn()
    ensures { (m : ℕ) (entries : List Entry) (handed : List Delivered) (before : Past) (b : Bunch)
        → Holds (Deed.Took m entries handed ∷ before) → IsProper b
        → ComeInTurn b.channel (is_copied_on (Deed.Took m entries handed ∷ before) b.channel)
        (raws_heard AtClient (Deed.Took m entries handed ∷ before) b).whole }
{}

/// Where a bunch breaks no rule, and its payloads were read one by one, all holds again after it.
pub fn all_holds_after()
    ensures { (m : ℕ) (entries : List Entry) (handed after : List Delivered)
        (before : Past) (b : Bunch)
        → Holds (Deed.Took m entries handed ∷ before) → IsProper b
        → (raws_heard AtClient (Deed.Took m entries handed ∷ before) b).cause ≡ None
        → AllCame (Deed.Took m entries handed ∷ before) (Deed.Took m entries after ∷ before)
        b.channel (raws_heard AtClient (Deed.Took m entries handed ∷ before) b).whole
        → Holds (Deed.Took m (Entry.Heard b ∷ entries) after ∷ before) }
{}

/// It holds before anything was done, and whatever hands nothing on and receives nothing leaves it
/// so.
pub fn all_holds_still()
    ensures first { Holds [] }
    ensures still { (past later : Past) → delivered_of later ≡ delivered_of past
        → ((ch : ℕ) → received_on later ch ≡ received_on past ch) → Holds past → Holds later }
{}
