//! A row of a table, and what comes of its text.

use crate::place::Place;
use cs_policy::Entry;
use pg_report::{JournalFail, Line, Stamped, journal, read_journal};
use scene_text::{SceneFail, print, scene};
use std::alloc::{AllocError, Global};

/// A row: what is wanted, and the text with its place.
#[derive(Drop)]
pub struct Row<'a> {
    pub wanted: &'a str,
    place: Place,
    text: &'a str,
}

impl<'a> Row<'a> {
    /// The row of a line, where its words are those of one.
    pub fn of(line: &'a str) -> Option<Row<'a>> {
        let (wanted, rest) = line.split_once(' ')?;
        let (name, text) = rest.split_once(' ')?;
        let place = Place::named(name)?;
        Some(Row {
            wanted,
            place,
            text,
        })
    }

    /// What comes of the row's text, in the words in which a row says what is wanted.
    pub fn outcome(&self, alloc: Global) -> Result<String, AllocError> {
        let text = self.whole(alloc)?;
        if self.place.is_scene() {
            scene_outcome(alloc, &text)
        } else {
            journal_outcome(alloc, &text)
        }
    }

    /// The whole text.
    fn whole(&self, alloc: Global) -> Result<String, AllocError> {
        let (before, behind) = self.place.around();
        let mut whole = String::new(alloc);
        whole.push_str(before)?;
        for (number, piece) in self.text.split("\\n").enumerate() {
            if number > 0 {
                whole.push('\n')?;
            }
            whole.push_str(piece)?;
        }
        whole.push_str(behind)?;
        Ok(whole)
    }
}

fn scene_outcome(alloc: Global, text: &str) -> Result<String, AllocError> {
    match scene(alloc, text.as_bytes()) {
        Ok(scene) => again(alloc, text, &print(alloc, &scene)?),
        Err(SceneFail::Bad { line, kind }) => format!(in alloc; "{line}.{kind}"),
        Err(SceneFail::NoMemory) => Err(AllocError),
    }
}

fn journal_outcome(alloc: Global, text: &str) -> Result<String, AllocError> {
    match read_journal(alloc, text.as_bytes()) {
        Ok((lines, calls)) => {
            let history: Vec<Stamped<Entry>> = lines.into_iter().map(stamped).collect(alloc)?;
            again(alloc, text, &journal(alloc, &history, calls)?)
        }
        Err(JournalFail::Bad { line }) => format!(in alloc; "{line}"),
        Err(JournalFail::NoMemory) => Err(AllocError),
    }
}

/// Whether a text is printed as it stands.
fn again(alloc: Global, text: &str, printed: &[u8]) -> Result<String, AllocError> {
    let word = if printed == text.as_bytes() {
        "good"
    } else {
        "taken"
    };
    String::from_str(alloc, word)
}

/// The entry of a line with its stamp.
fn stamped(line: Line) -> Stamped<Entry> {
    Stamped {
        stamp: line.stamp,
        part: 0,
        caller: 0,
        entry: line.entry,
    }
}
