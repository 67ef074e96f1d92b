// What a turn does, by its part.
ghost use Rattle.std.specs.Prelude.{◌≡◌, ◌++◌, ℕ, suc, List, false, is_some};
ghost use Rattle.protocol_model.specs.Value.{Table};
ghost use Rattle.replication_model.specs.Headline.{IsPrefix};
ghost use Rattle.live_model.specs.Outside.{Act, Heard};
ghost use Rattle.live_model.specs.Server.{Server, Served, after_server_turn};
ghost use Rattle.live_model.specs.Server.{after_heard, after_script_part, after_ticks};
ghost use Rattle.live_model.specs.Caller.{Caller, Called, after_caller_turn, asks, after_tick};
ghost use Rattle.live_model.specs.Caller.{after_heard as caller_hears_one};
ghost use Rattle.live_model.specs.Runs.{Both, after_server_turns, after_caller_turns, after_turns};
ghost use Rattle.live_laws.specs.Stepwise.{still, caller_still, IsWhole, IsWholeFor};
ghost use Rattle.live_laws.specs.Stepwise.{served_still, called_still, AreSentOn};

/// What a server does in a turn is decided by its part, and what follows is left for the turns after
/// it.
pub fn server_turn_hears_its_part()
    ensures { (table : Table) (digest : List ℕ) (part more : List Heard) (server : Server)
        → IsWhole part
        → after_server_turn table digest (still (part ++ more) server)
        ≡ served_still more (after_server_turn table digest (still part server)) }
{}

/// And so of a client.
pub fn client_turn_hears_its_part()
    ensures { (table : Table) (digest : List ℕ) (part more : List Heard) (c : Caller)
        → IsWholeFor c part
        → after_caller_turn table digest (caller_still (part ++ more) c)
        ≡ called_still more (after_caller_turn table digest (caller_still part c)) }
{}

/// What was done stays in front of what the turns after it do.
pub fn turns_begin_with_what_was_done()
    ensures server { (table : Table) (digest : List ℕ) (turns : ℕ) (served : Served)
        → IsPrefix served.1 (after_server_turns table digest turns served).1 }
    ensures client { (table : Table) (digest : List ℕ) (turns : ℕ) (called : Called)
        → IsPrefix called.1 (after_caller_turns table digest turns called).1 }
    ensures both { (table : Table) (digest : List ℕ) (turns : ℕ) (both : Both)
        → IsPrefix both.1 (after_turns table digest turns both).1 }
{}

/// A server sends on end 0 alone: what it hears is answered there, and its ticks go there.
pub fn server_sends_on_the_first_end()
    ensures hears { (table : Table) (digest : List ℕ) (server : Server) (h : Heard)
        → AreSentOn 0 (after_heard table digest server h).1 }
    ensures plays { (table : Table) (server : Server)
        → AreSentOn 0 (after_script_part table server).1 }
    ensures ticks { (table : Table) (server : Server)
        → AreSentOn 0 (after_ticks table server).1 }
{}

/// A client sends on its own end alone.
pub fn client_sends_on_its_end()
    ensures asks { (digest : List ℕ) (c : Caller) → AreSentOn c.end (asks digest c) }
    ensures hears { (table : Table) (c : Caller) (h : Heard)
        → AreSentOn c.end (caller_hears_one table c h).1 }
    ensures ticks { (table : Table) (c : Caller) → AreSentOn c.end (after_tick table c).1 }
{}
