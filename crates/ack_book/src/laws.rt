// What a book doesn't see: of all that an end does, only packets sent, packets taken, their
// acknowledgements and ticks change what a book keeps.
ghost use Rattle.std.specs.Prelude.{ℕ, List, ◌∷◌};
ghost use Rattle.protocol_model.specs.declared.Version.{Version};
ghost use Rattle.protocol_model.specs.Packet.{Bunch};
ghost use Rattle.protocol_model.specs.Payload.{Message};
ghost use Rattle.connection_model.specs.Feed.{Past, Deed, Entry, Delivered, Ending};
ghost use Rattle.ack_book.specs.Book.{Book};
ghost use Rattle.ack_book.specs.Keeps.{Keeps};

/// A book keeps the same after a reliable bunch was made.
pub fn made_is_unseen()
    ensures { (book : Book) (version : Version) (past : Past) (channel number : ℕ)
        (message : Message) (i : ℕ)
        → Keeps book version past → Keeps book version (Deed.Made channel number message i ∷ past) }
{}

/// A book keeps the same after an unreliable call waits.
pub fn waiting_is_unseen()
    ensures { (book : Book) (version : Version) (past : Past) (message : Message)
        → Keeps book version past → Keeps book version (Deed.Waits message ∷ past) }
{}

/// A book keeps the same after the end is dead.
pub fn ending_is_unseen()
    ensures { (book : Book) (version : Version) (past : Past) (ending : Ending)
        → Keeps book version past → Keeps book version (Deed.Ended ending ∷ past) }
{}

/// A book keeps the same after the packet that was taken last told a bunch.
pub fn heard_is_unseen()
    ensures { (book : Book) (version : Version) (past : Past) (m : ℕ) (bunch : Bunch)
        (entries : List Entry)
        (handed : List Delivered) → Keeps book version (Deed.Took m entries handed ∷ past)
        → Keeps book version (Deed.Took m (Entry.Heard bunch ∷ entries) handed ∷ past) }
{}

/// A book keeps the same whatever the packet that was taken last handed on.
pub fn handed_is_unseen()
    ensures { (book : Book) (version : Version) (past : Past) (m : ℕ) (entries : List Entry)
        (before after : List Delivered) → Keeps book version (Deed.Took m entries before ∷ past)
        → Keeps book version (Deed.Took m entries after ∷ past) }
{}
