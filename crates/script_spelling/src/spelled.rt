// Lines by their word and fields.
ghost use Rattle.std.specs.Prelude.{◌≡◌, option_map};
ghost use Rattle.protocol_model.specs.Side.{AtServer, AtClient};
ghost use Rattle.script_model.specs.Script as script;
ghost use Rattle.script_spelling.specs.Fields.{pieces_after};
ghost use Rattle.script_spelling.specs.Reading.{spelled_as, two_as, spawn_as, set_as, switch_as, call_as, multi_as, forge_as};
ghost use Rattle.script_spelling.specs.SpelledBy.{spelled_by, capped_line};

use crate::fields::{first_piece, is_done};
use crate::shapes::{called, datagram, named, named_text, on_or_off, one, place, three, two};
use crate::word::{Word, word_of};
use protocol_model::Version;

/// A line by its word and its fields; values and arguments aren't looked at yet.
///
/// A number of more than 2^64 - 1 counts as that, and one of less than -(2^64 - 1) likewise. Names,
/// values and arguments are slices of the line; arguments have single spaces between, and are
/// `None` where there are none. `hex` spells at most 2,048 bytes.
#[derive(Clone, Copy)]
pub enum Spelled<'a> {
    Join {
        version: Version,
        player: i128,
        budget: i128,
    },
    Spawn {
        class: &'a [u8],
        x: i128,
        y: i128,
    },
    Destroy {
        actor: i128,
    },
    Set {
        actor: i128,
        name: &'a [u8],
        value: &'a [u8],
    },
    Own {
        actor: i128,
        player: i128,
    },
    View {
        player: i128,
        x: i128,
        y: i128,
    },
    Add {
        on: bool,
        actor: i128,
        player: i128,
    },
    Dormant {
        actor: i128,
    },
    Wake {
        actor: i128,
    },
    Flush {
        actor: i128,
    },
    Switch {
        actor: i128,
        name: &'a [u8],
        on: bool,
    },
    Team {
        player: i128,
        team: i128,
    },
    Give {
        actor: i128,
        team: i128,
    },
    Tick,
    ClientTick {
        player: i128,
    },
    Down {
        player: i128,
        packet: i128,
    },
    Up {
        player: i128,
        packet: i128,
    },
    DownNew {
        player: i128,
        every: i128,
    },
    UpNew {
        player: i128,
        every: i128,
    },
    Call {
        player: i128,
        actor: i128,
        name: &'a [u8],
        args: Option<&'a [u8]>,
    },
    ClientCall {
        player: i128,
        actor: i128,
        name: &'a [u8],
        args: Option<&'a [u8]>,
    },
    Multi {
        actor: i128,
        name: &'a [u8],
        args: Option<&'a [u8]>,
    },
    Dump {
        player: i128,
    },
    Settled {
        player: i128,
        actor: i128,
    },
    Forge {
        player: i128,
        hex: &'a [u8],
    },
    ClientForge {
        player: i128,
        hex: &'a [u8],
    },
}

// A line of the word with these fields.
fn spelled_as(word: Word, fields: Option<&[u8]>) -> Option<Spelled<'_>>
    ensures { option_map spelled_by result
        ≡ spelled_as word (pieces_after 32 fields.entry) }
{
    match word {
        Word::Join => join(Version::One, fields),
        Word::Join2 => join(Version::Two, fields),
        Word::Spawn => spawn(fields),
        Word::Destroy => one(fields).map(|actor| Spelled::Destroy { actor }),
        Word::Set => set(fields),
        Word::Own => two(fields).map(|(actor, player)| Spelled::Own { actor, player }),
        Word::View => three(fields).map(|(player, x, y)| Spelled::View { player, x, y }),
        Word::Add => add(true, fields),
        Word::Unadd => add(false, fields),
        Word::Dormant => one(fields).map(|actor| Spelled::Dormant { actor }),
        Word::Wake => one(fields).map(|actor| Spelled::Wake { actor }),
        Word::Flush => one(fields).map(|actor| Spelled::Flush { actor }),
        Word::Switch => switch(fields),
        Word::Team => two(fields).map(|(player, team)| Spelled::Team { player, team }),
        Word::Give => two(fields).map(|(actor, team)| Spelled::Give { actor, team }),
        Word::Tick => is_done(fields).then_some(Spelled::Tick),
        Word::ClientTick => one(fields).map(|player| Spelled::ClientTick { player }),
        Word::Down => two(fields).map(|(player, packet)| Spelled::Down { player, packet }),
        Word::Up => two(fields).map(|(player, packet)| Spelled::Up { player, packet }),
        Word::DownNew => two(fields).map(|(player, every)| Spelled::DownNew { player, every }),
        Word::UpNew => two(fields).map(|(player, every)| Spelled::UpNew { player, every }),
        Word::Call => call(fields),
        Word::ClientCall => client_call(fields),
        Word::Multi => multi(fields),
        Word::Dump => one(fields).map(|player| Spelled::Dump { player }),
        Word::Settled => two(fields).map(|(player, actor)| Spelled::Settled { player, actor }),
        Word::Forge => forge(fields),
        Word::ClientForge => client_forge(fields),
    }
}

fn join(version: Version, fields: Option<&[u8]>) -> Option<Spelled<'_>>
    ensures { option_map spelled_by result
        ≡ two_as (script.Join version) (pieces_after 32 fields.entry) }
{
    let (player, budget) = two(fields)?;
    Some(Spelled::Join {
        version,
        player,
        budget,
    })
}

fn spawn(fields: Option<&[u8]>) -> Option<Spelled<'_>>
    ensures { option_map spelled_by result
        ≡ spawn_as (pieces_after 32 fields.entry) }
{
    let (class, x, y) = place(fields)?;
    Some(Spelled::Spawn { class, x, y })
}

fn set(fields: Option<&[u8]>) -> Option<Spelled<'_>>
    ensures { option_map spelled_by result
        ≡ set_as (pieces_after 32 fields.entry) }
{
    let (actor, name, value) = named_text(fields)?;
    Some(Spelled::Set { actor, name, value })
}

fn add(on: bool, fields: Option<&[u8]>) -> Option<Spelled<'_>>
    ensures { option_map spelled_by result
        ≡ two_as (script.Add on) (pieces_after 32 fields.entry) }
{
    let (actor, player) = two(fields)?;
    Some(Spelled::Add { on, actor, player })
}

fn switch(fields: Option<&[u8]>) -> Option<Spelled<'_>>
    ensures { option_map spelled_by result
        ≡ switch_as (pieces_after 32 fields.entry) }
{
    let (actor, name, text) = named_text(fields)?;
    let on = on_or_off(text)?;
    Some(Spelled::Switch { actor, name, on })
}

fn call(fields: Option<&[u8]>) -> Option<Spelled<'_>>
    ensures { option_map spelled_by result
        ≡ call_as AtServer (pieces_after 32 fields.entry) }
{
    let (player, actor, name, args) = called(fields)?;
    Some(Spelled::Call {
        player,
        actor,
        name,
        args,
    })
}

fn client_call(fields: Option<&[u8]>) -> Option<Spelled<'_>>
    ensures { option_map spelled_by result
        ≡ call_as AtClient (pieces_after 32 fields.entry) }
{
    let (player, actor, name, args) = called(fields)?;
    Some(Spelled::ClientCall {
        player,
        actor,
        name,
        args,
    })
}

fn multi(fields: Option<&[u8]>) -> Option<Spelled<'_>>
    ensures { option_map spelled_by result
        ≡ multi_as (pieces_after 32 fields.entry) }
{
    let (actor, name, args) = named(fields)?;
    Some(Spelled::Multi { actor, name, args })
}

fn forge(fields: Option<&[u8]>) -> Option<Spelled<'_>>
    ensures { option_map spelled_by result
        ≡ forge_as AtServer (pieces_after 32 fields.entry) }
{
    let (player, hex) = datagram(fields)?;
    Some(Spelled::Forge { player, hex })
}

fn client_forge(fields: Option<&[u8]>) -> Option<Spelled<'_>>
    ensures { option_map spelled_by result
        ≡ forge_as AtClient (pieces_after 32 fields.entry) }
{
    let (player, hex) = datagram(fields)?;
    Some(Spelled::ClientForge { player, hex })
}

/// The line that the text spells; nothing exactly where it has another shape than any line.
pub fn spelled_of(text: &[u8]) -> Option<Spelled<'_>>
    ensures { option_map spelled_by result ≡ option_map capped_line (script.spelled_of text.now) }
{
    let (word, fields) = first_piece(text, 32);
    spelled_as(word_of(word)?, fields)
}
