// Several lines that a player doesn't see, and what a transcript tells of its connection.
ghost use Rattle.std.specs.Prelude.{◌++◌, ℕ, List, false};
ghost use Rattle.protocol_model.specs.Value.{Table};
ghost use Rattle.script_model.specs.Lines.{Line};
ghost use Rattle.script_model.specs.ScriptRules.{Reads};
ghost use Rattle.isolation_laws.specs.Told.{
  OthersAreLeftOut,
  HearsSameWithout,
  TellsSameWithout,
  ServesEachAlone,
};

/// All lines about other players' connections may be left out at once: each is unseen where it
/// stands.
pub fn others_are_left_out()
    ensures { OthersAreLeftOut }
{}

/// Without any number of unseen lines a player's two ends hear the same.
pub fn hears_same_without()
    ensures { HearsSameWithout }
{}

/// And the transcript tells the same of its connection, in order: the packets that both ends sent
/// and where one stalled, its calls and how they were answered, the calls handed over, the verdicts
/// on datagrams, its copies, and whether an actor is settled for it. Only the verdict on a call
/// handed over at the server isn't among it, which goes by who owns the actor then.
pub fn tells_same_without()
    ensures { TellsSameWithout }
{}

/// Each player of a script is served as if it were alone: the packets sent to it are those of a
/// server that hears its feed and nothing else, and the transcript tells of its connection what it
/// tells without the lines about others, and without any other lines that the player doesn't see.
pub fn scripts_serve_each_alone()
    ensures { (table : Table) (script : List ℕ) (lines more : List Line)
        → Reads table false script (lines ++ more) → ServesEachAlone table lines }
{}
