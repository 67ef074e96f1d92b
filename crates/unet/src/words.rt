// The words of the program.
ghost use Rattle.std.specs.Prelude.{◌≡◌, map, option_map, string_bytes};
ghost use Rattle.program_model.specs.Words.{command_of, replay_in, check_in, show_in, sample_in, number_in, is_file_name, is_built_in, is_table_name};
ghost use Rattle.unet.specs.Words.{command_in};

use protocol_model::Version;
use script_spelling::number;

/// What the words ask for. A table is a file's name, or `-` for the built-in one.
#[derive(Clone, Copy, Debug)]
pub enum Command<'a> {
    /// A script is replayed.
    Replay { classes: &'a str, script: &'a str },
    /// A table's summary.
    Check { classes: &'a str },
    /// The packets of a file of hex lines.
    Show { version: Version, file: &'a str },
    /// The summary of a sample of so many ticks, 1 to 2,000.
    Sample { ticks: u32 },
}

/// The command that the words after the program's name ask for; nothing where they break the rules.
pub fn command_of(words: &[String]) -> Option<Command<'_>>
    ensures { option_map command_in result ≡ command_of (map string_bytes words.now) }
{
    let (name, fields) = words.split_first()?;
    let name = name.as_str();
    if name == "replay" {
        return replay_in(fields);
    }
    if name == "check" {
        return check_in(fields);
    }
    if name == "show" {
        return show_in(Version::One, fields);
    }
    if name == "show2" {
        return show_in(Version::Two, fields);
    }
    if name == "sample" {
        return sample_in(fields);
    }
    None
}

fn replay_in(fields: &[String]) -> Option<Command<'_>>
    ensures { option_map command_in result ≡ replay_in (map string_bytes fields.now) }
{
    match fields {
        [classes, script] if names_table(classes.as_str()) && names_file(script.as_str()) => {
            Some(Command::Replay {
                classes: classes.as_str(),
                script: script.as_str(),
            })
        }
        _ => None,
    }
}

fn check_in(fields: &[String]) -> Option<Command<'_>>
    ensures { option_map command_in result ≡ check_in (map string_bytes fields.now) }
{
    match fields {
        [classes] if names_table(classes.as_str()) => Some(Command::Check {
            classes: classes.as_str(),
        }),
        _ => None,
    }
}

fn show_in(version: Version, fields: &[String]) -> Option<Command<'_>>
    ensures { option_map command_in result ≡ show_in version (map string_bytes fields.now) }
{
    match fields {
        [file] if names_file(file.as_str()) => Some(Command::Show {
            version,
            file: file.as_str(),
        }),
        _ => None,
    }
}

fn sample_in(fields: &[String]) -> Option<Command<'_>>
    ensures { option_map command_in result ≡ sample_in (map string_bytes fields.now) }
{
    match fields {
        [ticks] => {
            let ticks = ticks_in(ticks.as_bytes())?;
            Some(Command::Sample { ticks })
        }
        _ => None,
    }
}

/// A number of ticks, 1 to 2,000.
fn ticks_in(word: &[u8]) -> Option<u32>
    ensures { result ≡ number_in 1 2000 word.now }
{
    let n = number(word)?;
    if 1 <= n && n <= 2000 {
        Some(n as u32)
    } else {
        None
    }
}

/// The word may name a file.
fn names_file(word: &str) -> bool
    ensures { result ≡ is_file_name word.now }
{
    !word.is_empty() && !word.starts_with('-')
}

/// The word stands for the built-in table.
pub fn is_built_in(word: &str) -> bool
    ensures { result ≡ is_built_in word.now }
{
    word == "-"
}

/// The word names a table.
fn names_table(word: &str) -> bool
    ensures { result ≡ is_table_name word.now }
{
    is_built_in(word) || names_file(word)
}
