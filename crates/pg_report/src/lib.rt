//! The journal: the text of a history, and its reading.
#![tactic(auto)]

mod event_lines;
mod event_words;
mod file_replies;
mod forms;
mod journal_lines;
mod journal_text;
mod line;
mod process_replies;
mod replies;
mod reply_lines;
mod reply_words;
mod words;

pub use journal_lines::read_journal;
pub use journal_text::{journal, summary};
pub use line::{JournalFail, Line};
pub use pg_book::Stamped;

#[cfg(test)]
mod tests;
