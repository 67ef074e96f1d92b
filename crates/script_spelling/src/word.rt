// The words with which lines begin.
ghost use Rattle.std.specs.Prelude.{◌≡◌};
ghost use Rattle.script_spelling.specs.Words.{word_of, world_word, play_word};

use crate::fields::are_same;

/// The first word of a line.
#[derive(Clone, Copy)]
pub(crate) enum Word {
    Join,
    Join2,
    Spawn,
    Destroy,
    Set,
    Own,
    View,
    Add,
    Unadd,
    Dormant,
    Wake,
    Flush,
    Switch,
    Team,
    Give,
    Tick,
    ClientTick,
    Down,
    Up,
    DownNew,
    UpNew,
    Call,
    ClientCall,
    Multi,
    Dump,
    Settled,
    Forge,
    ClientForge,
}

// Words of joins and edits.
fn world_word(text: &[u8]) -> Option<Word>
    ensures { result ≡ world_word text.now }
{
    if are_same(b"join", text) {
        Some(Word::Join)
    } else if are_same(b"join2", text) {
        Some(Word::Join2)
    } else if are_same(b"spawn", text) {
        Some(Word::Spawn)
    } else if are_same(b"destroy", text) {
        Some(Word::Destroy)
    } else if are_same(b"set", text) {
        Some(Word::Set)
    } else if are_same(b"own", text) {
        Some(Word::Own)
    } else if are_same(b"view", text) {
        Some(Word::View)
    } else if are_same(b"add", text) {
        Some(Word::Add)
    } else if are_same(b"unadd", text) {
        Some(Word::Unadd)
    } else if are_same(b"dormant", text) {
        Some(Word::Dormant)
    } else if are_same(b"wake", text) {
        Some(Word::Wake)
    } else if are_same(b"flush", text) {
        Some(Word::Flush)
    } else if are_same(b"switch", text) {
        Some(Word::Switch)
    } else if are_same(b"team", text) {
        Some(Word::Team)
    } else if are_same(b"give", text) {
        Some(Word::Give)
    } else {
        None
    }
}

// Words of ticks, deliveries, calls and questions.
fn play_word(text: &[u8]) -> Option<Word>
    ensures { result ≡ play_word text.now }
{
    if are_same(b"tick", text) {
        Some(Word::Tick)
    } else if are_same(b"ctick", text) {
        Some(Word::ClientTick)
    } else if are_same(b"down", text) {
        Some(Word::Down)
    } else if are_same(b"up", text) {
        Some(Word::Up)
    } else if are_same(b"downnew", text) {
        Some(Word::DownNew)
    } else if are_same(b"upnew", text) {
        Some(Word::UpNew)
    } else if are_same(b"call", text) {
        Some(Word::Call)
    } else if are_same(b"ccall", text) {
        Some(Word::ClientCall)
    } else if are_same(b"multi", text) {
        Some(Word::Multi)
    } else if are_same(b"dump", text) {
        Some(Word::Dump)
    } else if are_same(b"settled", text) {
        Some(Word::Settled)
    } else if are_same(b"forge", text) {
        Some(Word::Forge)
    } else if are_same(b"cforge", text) {
        Some(Word::ClientForge)
    } else {
        None
    }
}

/// The word that the text is.
pub(crate) fn word_of(text: &[u8]) -> Option<Word>
    ensures { result ≡ word_of text.now }
{
    match world_word(text) {
        Some(word) => Some(word),
        None => play_word(text),
    }
}
