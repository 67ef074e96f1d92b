// What is read by the copies that are kept is what the definitions read after the past.
ghost use Rattle.std.specs.Prelude.{◌≡◌, ◌==◌, List, Bool, true, false};
ghost use Rattle.protocol_model.specs.Packet.{Bunch};
ghost use Rattle.connection_model.specs.Feed.{Past};
ghost use Rattle.connection_model.specs.Names.{names_of};
ghost use Rattle.connection_model.specs.PayloadReading.{client_payload_at};
ghost use Rattle.class_layout.specs.Tables.{Layout, table_in};
ghost use Rattle.actor_copies.specs.declared.copy.ActorCopy.{ActorCopy};
ghost use Rattle.actor_copies.specs.Stands.{Stands};
ghost use Rattle.client_payloads.specs.Readings.{open_in, unopened_in};

/// A payload that doesn't open is read by its channel and the flags of its first bunch.
pub fn unopened_is_read()
    ensures { (layout : Layout) (copies : List ActorCopy) (past : Past) (first : Bunch)
        (bits : List Bool) → Stands layout copies past
        → ((first.channel == 0) ≡ false → first.closes ≡ false → first.opens ≡ false)
        → unopened_in layout copies first.channel first.closes first.sleeps first.reliable bits
        ≡ client_payload_at (table_in layout) past first bits }
{}

/// An open is read by the names that were learnt before it.
pub fn open_is_read()
    ensures { (layout : Layout) (copies : List ActorCopy) (past : Past) (first : Bunch)
        (bits : List Bool) → Stands layout copies past
        → (first.channel == 0) ≡ false → first.closes ≡ false → first.opens ≡ true
        → open_in layout copies first.channel first.exports (names_of past) bits
        ≡ client_payload_at (table_in layout) past first bits }
{}
