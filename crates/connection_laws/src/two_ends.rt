// What holds between two linked ends, both ways: over a network that loses, repeats and reorders
// packets and alters none.
ghost use Rattle.std.specs.Prelude.{◌≡◌};
ghost use Rattle.connection_model.specs.Feed.{End, Past};
ghost use Rattle.connection_laws.specs.Link.{IsLink, BothWays};
ghost use Rattle.connection_laws.specs.Delivered.{ReadsRight, AppliesPrefixes, ReceivesPrefixes, NeverOverruns, NeverMisjoins};

/// A packet that may come is read by its own number, what is known to have arrived was taken, and a
/// bunch that was received was made, as it was received.
pub fn numbers_read_right()
    ensures { (left right : End) (l r : Past) → left.version ≡ right.version
        → IsLink left right l r → BothWays ReadsRight l r }
{}

/// On each index, the run of bunches applied is a prefix of those made.
pub fn applied_in_order()
    ensures { (left right : End) (l r : Past) → left.version ≡ right.version
        → IsLink left right l r → BothWays AppliesPrefixes l r }
{}

/// On each index, the whole payloads received are a prefix of the messages made, each with its bits
/// and its first bunch.
pub fn received_in_order()
    ensures { (left right : End) (l r : Past) → left.version ≡ right.version
        → IsLink left right l r → BothWays ReceivesPrefixes l r }
{}

/// A bunch that was made and comes before its turn finds fewer than 512 held.
pub fn nothing_overruns()
    ensures { (left right : End) (l r : Past) → left.version ≡ right.version
        → IsLink left right l r → BothWays NeverOverruns l r }
{}

/// Where each message made on an index has at most 70,000 bits, joining refuses no part that is
/// applied.
pub fn nothing_misjoins()
    ensures { (left right : End) (l r : Past) → left.version ≡ right.version
        → IsLink left right l r → BothWays NeverMisjoins l r }
{}
