// Laws of packets: they and their spellings belong to each other one to one.
ghost use Rattle.std.specs.Prelude.{◌≡◌, ◌<◌, ℕ, List, All, Ok};
ghost use Rattle.protocol_model.specs.Packet.{Packet, Spells};
ghost use Rattle.protocol_model.specs.PacketReading.{packet_of};
ghost use Rattle.protocol_model.specs.declared.Version.{Version};

/// A packet is read from each spelling of it.
pub fn packet_is_read_back()
    ensures { (version : Version) (p : Packet) (bytes : List ℕ)
        → Spells version p bytes → packet_of version bytes ≡ Ok p }
{}

/// Only bytes that spell a packet are read as that packet.
pub fn packet_was_spelled()
    ensures { (version : Version) (p : Packet) (bytes : List ℕ) → All (λ byte. byte < 256) bytes
        → packet_of version bytes ≡ Ok p → Spells version p bytes }
{}

/// A packet has at most one spelling.
pub fn packet_has_one_spelling()
    ensures { (version : Version) (p : Packet) (a b : List ℕ)
        → Spells version p a → Spells version p b → a ≡ b }
{}

/// Bytes spell at most one packet.
pub fn bytes_spell_one_packet()
    ensures { (version : Version) (p q : Packet) (bytes : List ℕ)
        → Spells version p bytes → Spells version q bytes → p ≡ q }
{}
