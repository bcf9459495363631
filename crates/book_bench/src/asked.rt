//! The words of the command line.

ghost use Rattle.std.specs.Prelude.{◌<◌, ◌≤◌, map, string_bytes};
ghost use Rattle.book_bench.specs.declared.asked.TheConstants.{MOST};

/// The most draws a caller.
pub const MOST: u64 = 1_000_000;

/// The draws a caller where no word asks for another number.
pub const FEW: u64 = 1_000;

/// What the words ask for.
#[derive(Clone, Copy, Debug, PartialEq, Eq)]
pub struct Asked {
    /// The draws a caller.
    pub draws: u64,
    /// Whether times are told.
    pub timed: bool,
    ghost some: { 0 < draws },
    ghost within: { draws ≤ MOST },
}

impl Asked {
    ghost use Rattle.book_bench.specs.Asked.{IsAsked, IsAskedBy};

    /// What the words ask for, which do not name the program: `FEW` draws a caller where there is no word, and where
    /// there is one their number and times, in decimal digits, where a plus may stand first. Other words ask for
    /// nothing.
    pub fn from_words(words: &[String]) -> Option<Asked>
        ensures { IsAsked (map string_bytes words.now) result }
    {
        match words {
            [] => Some(Asked {
                draws: FEW,
                timed: false,
            }),
            [word] => Asked::from_word(word.as_str()),
            _ => None,
        }
    }

    fn from_word(word: &str) -> Option<Asked>
        ensures { IsAskedBy word.now result }
    {
        let Ok(draws) = word.parse::<u64>() else {
            return None;
        };
        if draws == 0 || draws > MOST {
            return None;
        }
        Some(Asked { draws, timed: true })
    }
}
