//! The line that an early end of a run prints.

ghost use Rattle.std.specs.Prelude.{◌≡◌, ◌+◌, ◌++◌, ◌≤◌, ◌<◌, ℕ, length, codes};
ghost use Rattle.std.specs.Fmt.{decimal};
ghost use Rattle.arrayvec.specs.ArrayString.{array_string_len};
ghost use Rattle.scene_run.specs.Texts.{kind_word, which_word, rule_text, early_line};

use arrayvec::ArrayString;
use pg_bytes::{Status, Which};

/// A line of at most 192 bytes, which takes no memory.
pub(crate) type Line = ArrayString<192>;

// The word of a kind of bad line.
fn kind_word(kind: u8) -> &'static str
    ensures word { result.now ≡ kind_word kind }
    ensures short { length result.now ≤ 16 }
{
    match kind {
        1 => "nottext",
        2 => "firstline",
        3 => "unknownword",
        4 => "place",
        5 => "words",
        6 => "form",
        7 => "unknown",
        8 => "range",
        _ => "",
    }
}

// The word of a bounded quantity.
fn which_word(which: Which) -> &'static str
    ensures word { result.now ≡ which_word which }
    ensures short { length result.now ≤ 16 }
{
    match which {
        Which::Scene => "scene",
        Which::Calls => "calls",
        Which::Workers => "workers",
        Which::Files => "files",
        Which::Processes => "processes",
        Which::Statics => "statics",
        Which::Caches => "caches",
        Which::Fails => "fails",
        Which::Attaches => "attaches",
        Which::FileBytes => "filebytes",
        Which::SignatureBytes => "signaturebytes",
    }
}

// Puts a number behind the line.
fn put_number(line: &mut Line, number: u64)
    requires room { array_string_len line.old + 40 ≤ 192 }
    ensures bytes { line.new.bytes ≡ line.old.bytes ++ decimal number }
    ensures few { array_string_len line.new ≤ array_string_len line.old + 40 }
{
    let mut buffer = itoa::Buffer::new();
    line.push_str(buffer.format(number));
}

// Puts the rule that a trust cache breaks behind the line, and ends it.
fn put_rule(line: &mut Line, number: u8, arg: u64)
    requires room { array_string_len line.old + 104 ≤ 192 }
    ensures { line.new.bytes ≡ line.old.bytes ++ rule_text number arg }
{
    line.push_str(" refused: trust.");
    put_number(line, u64::from(number));
    line.push_str(".");
    put_number(line, arg);
    line.push_str(".0\n");
}

/// The line that goes with the status of an early end; it takes no memory. No line goes with another status.
pub(crate) fn early_line(status: &Status) -> Line
    ensures { result.bytes ≡ early_line status.now }
{
    let mut line = Line::new();
    match *status {
        Status::Usage => line.push_str("usage: csrun SCENE | csrun solo SCENE | csrun gen N\n"),
        Status::SceneBad { line: number, kind } => {
            line.push_str("csrun: line ");
            put_number(&mut line, number);
            line.push_str(": ");
            line.push_str(kind_word(kind));
            line.push_str("\n");
        }
        Status::FileFault { item } => {
            line.push_str("csrun: cannot read item ");
            put_number(&mut line, u64::from(item));
            line.push_str("\n");
        }
        Status::Limit { which, number } => {
            line.push_str("csrun: limit ");
            line.push_str(which_word(which));
            line.push_str(" ");
            put_number(&mut line, number);
            line.push_str("\n");
        }
        Status::TrustBad { item, number, arg } => {
            line.push_str("csrun: trust cache of item ");
            put_number(&mut line, u64::from(item));
            put_rule(&mut line, number, arg);
        }
        _ => {}
    }
    line
}
