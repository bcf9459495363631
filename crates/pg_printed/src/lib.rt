//! A journal tells its history.
//!
//! Of the legal histories of one opening no two have the same journal. The definitions stand in `pg_history` and
//! `pg_report`.
#![tactic(auto)]

mod laws;

pub use laws::{equal_journals_are_of_one_history, equal_journals_of_scripts_are_of_one_history};
