//! The words of a command line.

ghost use Rattle.std.specs.Prelude.{◌≡◌, drop};

/// The words that a program is given: those of its command line behind the first, which names the program. Where there
/// is no first word there are none.
pub fn arguments(words: &[String]) -> &[String]
    ensures { result.now ≡ drop 1 words.now }
{
    match words {
        [] => words,
        [_, given @ ..] => given,
    }
}
