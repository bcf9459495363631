//! A scene, and why a text is none.

ghost use Rattle.std.specs.Prelude.{◌≡◌};
ghost use Rattle.scene_text.specs.declared.whole.SceneFail.TheVariants.{NoMemory};

use crate::head::Heads;
use crate::scripts::Scripts;
use std::alloc::{AllocError, AllocFailed};

/// What a scene says: its header lines, and its scripts with their calls.
#[derive(Debug, Drop)]
pub struct Scene {
    pub head: Heads,
    pub scripts: Scripts,
}

/// Why a scene was not read.
#[derive(Clone, Copy, Debug, PartialEq, Eq)]
pub enum SceneFail {
    /// There was no memory left.
    NoMemory,
    /// The line with this number, counted from 1, is the first bad one, and `kind` is the first kind of bad line that
    /// it is: 1 holds a byte outside 0x20 to 0x7e, 2 is the first and not `scene 1`, 3 begins with no word of the
    /// language, 4 stands at a wrong place, 5 has another number of words, 6 has a word not of its form, 7 names what
    /// was not declared above, 8 has a number, an address or a length outside its range.
    Bad { line: u64, kind: u8 },
}

impl From<AllocError> for SceneFail {
    ghost from_gives = { λ _ e. e ≡ NoMemory };

    fn from(_e: AllocError) -> SceneFail {
        SceneFail::NoMemory
    }
}

impl<T: Drop> From<AllocFailed<T>> for SceneFail {
    ghost from_gives = { λ _ e. e ≡ NoMemory };

    fn from(_e: AllocFailed<T>) -> SceneFail {
        SceneFail::NoMemory
    }
}
