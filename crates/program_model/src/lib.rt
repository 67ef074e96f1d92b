// The definitions of the program's words and of what it writes besides transcripts: which words are
// understood, why a table or a line of packets is refused in words, the summary of a class table, and
// the packets of a file of hex lines.
//
//     words ── command_of ──▶ command, or nothing
//     refusal ── table_refused_text, line_refused_text ──▶ its line
//     table ── check_text ──▶ its classes, and the digest of its file
//     hex lines ── packets_of ──▶ packets ── show_text ──▶ their fields, or the first bad line
//
// It has definitions, laws about them and no code. It stands on the models of tables and scripts and
// on `sha1`'s meaning of a digest. `proofs/` computes an output of each.
#![tactic(auto)]

ghost use Rattle.std.specs.Prelude.{◌≡◌, [], None, Ok};
ghost use Rattle.protocol_model.specs.declared.Version.{Version};
ghost use Rattle.program_model.specs.Words.{command_of};
ghost use Rattle.program_model.specs.Shown.{packets_of};

/// A run without words asks for nothing.
pub fn no_words()
    ensures { command_of [] ≡ None }
{}

/// A file without bytes has no packets.
pub fn empty_file()
    ensures { (version : Version) → packets_of version [] ≡ Ok [] }
{}
