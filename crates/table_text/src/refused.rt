// Why a class table is refused, in words.
ghost use Rattle.std.specs.Prelude.{◌≡◌, IfOk, string_bytes};
ghost use Rattle.script_model.specs.Reports.{words};
ghost use Rattle.program_model.specs.Refused.{place_words, table_word, table_refused_text};

use class_layout::{Place, TableWhy};
use net_core::Memory;
use std::alloc::Global;

fn why_word(why: TableWhy) -> &'static str
    ensures { result.now ≡ table_word why }
{
    match why {
        TableWhy::TooLong => "TooLong",
        TableWhy::Json => "Json",
        TableWhy::Shape => "Shape",
        TableWhy::Range => "Range",
        TableWhy::Name => "Name",
        TableWhy::Twice => "Twice",
        TableWhy::Parent => "Parent",
        TableWhy::BadType => "BadType",
        TableWhy::TooMany => "TooMany",
        TableWhy::TooBig => "TooBig",
    }
}

fn place_text(alloc: Global, place: Place) -> Result<String, Memory>
    ensures { IfOk result (λ text. string_bytes text ≡ words (place_words place)) }
{
    let text = match place {
        Place::Table => format!(in alloc; "table")?,
        Place::Class { class } => format!(in alloc; "class {class}")?,
        Place::Property { class, property } => {
            format!(in alloc; "class {class} property {property}")?
        }
        Place::Call { class, call } => format!(in alloc; "class {class} call {call}")?,
    };
    Ok(text)
}

/// The line that tells which rule a file breaks first, and where.
pub fn refused_text(alloc: Global, place: Place, why: TableWhy) -> Result<String, Memory>
    ensures { IfOk result (λ text. string_bytes text
        ≡ table_refused_text (record { place = place; why = why })) }
{
    let place = place_text(alloc, place)?;
    let why = why_word(why);
    Ok(format!(in alloc; "unet: class table refused at {place}: {why}\n")?)
}
