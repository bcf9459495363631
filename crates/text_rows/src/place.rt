//! Where a row's text stands in a whole text.

/// What stands before a header line: it is line 5.
const HEADER: &str = "scene 1\nfile B\ncache T\nprocess none\n";

/// What stands before a call: it is line 6.
const CALLS: &str = "scene 1\nfile B\ncache T\nprocess none\nscript\n";

/// What stands before a call over pages of 16,384 bytes: it is line 7.
const LARGE: &str = "scene 1\npagesize 16384\nfile B\ncache T\nprocess none\nscript\n";

/// What stands behind the entry of a journal that is not a fault which was given or denied.
const SUMS: &str = "\nevents 1\ncalls 1\ngiven 0\ndenied 0\n";

/// What stands behind an entry that is given.
const GIVEN: &str = "\nevents 1\ncalls 1\ngiven 1\ndenied 0\n";

/// What stands behind an entry that is denied.
const DENIED: &str = "\nevents 1\ncalls 1\ngiven 0\ndenied 1\n";

/// Where a row's text stands.
#[derive(Clone, Copy, Debug, PartialEq, Eq)]
pub enum Place {
    /// As a header line, or as a call, of a scene.
    Header,
    Call,
    Large,
    /// As a whole scene.
    Scene,
    /// As the one entry of a journal, which counts no fault, one that was given, or one that was denied.
    Entry,
    Given,
    Denied,
    /// As a whole journal.
    Journal,
}

impl Place {
    /// The place of this name.
    pub fn named(word: &str) -> Option<Place> {
        match word {
            "header" => Some(Place::Header),
            "call" => Some(Place::Call),
            "large" => Some(Place::Large),
            "scene" => Some(Place::Scene),
            "entry" => Some(Place::Entry),
            "given" => Some(Place::Given),
            "denied" => Some(Place::Denied),
            "journal" => Some(Place::Journal),
            _ => None,
        }
    }

    /// What stands before a text here, and what behind it.
    pub fn around(self) -> (&'static str, &'static str) {
        match self {
            Place::Header => (HEADER, "\n"),
            Place::Call => (CALLS, "\n"),
            Place::Large => (LARGE, "\n"),
            Place::Scene | Place::Journal => ("", ""),
            Place::Entry => ("", SUMS),
            Place::Given => ("", GIVEN),
            Place::Denied => ("", DENIED),
        }
    }

    /// The whole text is to be a scene, and else a journal.
    pub fn is_scene(self) -> bool {
        match self {
            Place::Header | Place::Call | Place::Large | Place::Scene => true,
            Place::Entry | Place::Given | Place::Denied | Place::Journal => false,
        }
    }
}
