// What a server says of its world, over an accepted table and accepted edits.
ghost use Rattle.std.specs.Prelude.{◌≡◌, ℕ, List};
ghost use Rattle.protocol_model.specs.Side.{AtServer};
ghost use Rattle.protocol_model.specs.World.{Edits, class_of};
ghost use Rattle.connection_model.specs.Feed.{End, Past};
ghost use Rattle.table_model.specs.Facts.{IsTable};
ghost use Rattle.table_model.specs.Rules.{Entry};
ghost use Rattle.table_model.specs.Grammar.{table_of};
ghost use Rattle.connection_laws.specs.Run.{IsRun};
ghost use Rattle.payload_laws.specs.Accepted.{AreAccepted};
ghost use Rattle.headline_laws.specs.Marks.{marks_of, MarksCome};
ghost use Rattle.headline_laws.specs.Sights.{sights_of, Seeing};
ghost use Rattle.headline_laws.specs.Tells.{PastTells, OpensExport};

/// An open exports the path of its class, but for segments that had arrived.
pub fn opens_export_the_rest()
    ensures { (end : End) (past : Past) → IsRun end past → OpensExport past }
{}

/// What a server's messages say is what it saw of the world: classes of the table, and values and
/// calls of them.
pub fn servers_tell_what_they_saw()
    ensures { (entries : List Entry) (player : ℕ) (edits : Edits) (end : End) (past : Past)
        → IsTable entries → AreAccepted (table_of entries) edits → end.side ≡ AtServer
        → IsRun end past → Seeing (table_of entries) player edits (sights_of past)
        → PastTells entries (class_of (table_of entries) edits) AtServer past }
{}

/// An actor's opens, closes and Gones come in turn, and nothing is opened again after a Gone.
pub fn nothing_reopens_after_gone()
    ensures { (entries : List Entry) (player : ℕ) (edits : Edits) (end : End) (past : Past)
        (actor : ℕ) → IsTable entries → AreAccepted (table_of entries) edits → IsRun end past
        → Seeing (table_of entries) player edits (sights_of past)
        → MarksCome actor (marks_of past actor) }
{}
