//! What the words of a command line ask for.

ghost use Rattle.std.specs.Prelude.{◌≡◌, ◌≤◌, [], ◌∷◌, map, IfSome, string_bytes};
ghost use Rattle.scene_threads.specs.Words.{made_of, AskFor};

use pg_words::number;

/// The greatest number of which a scene is made.
const MOST: u64 = 1000;

/// What the words of a command line ask for.
#[derive(Drop)]
pub(crate) enum Request<'a> {
    /// The scene of this path, each of its scripts by a worker of its own.
    Scene(&'a str),
    /// The scene behind the word `solo`, its scripts one after another.
    Solo,
    /// The scene that is made of this number, each of its scripts by a worker of its own.
    Made(u64),
    /// Nothing that the program does.
    Nothing,
}

/// The number from 1 to 1,000 that a word is, without leading zeros.
fn made_of(word: &str) -> Option<u64>
    ensures value { result ≡ made_of word.now }
    ensures least { IfSome result (λ n. 1 ≤ n) }
    ensures most { IfSome result (λ n. n ≤ 1000) }
{
    let number = number(word.as_bytes())?;
    if number == 0 || number > MOST {
        return None;
    }
    Some(number)
}

/// What two words ask for.
fn asked_by<'a>(word: &str, other: &str) -> Request<'a>
    ensures { AskFor (word.now ∷ other.now ∷ []) result }
{
    if word == "solo" {
        return Request::Solo;
    }
    if word != "gen" {
        return Request::Nothing;
    }
    match made_of(other) {
        Some(n) => Request::Made(n),
        None => Request::Nothing,
    }
}

/// What these words, which do not name the program, ask for.
pub(crate) fn asked<'a>(words: &'a [String]) -> Request<'a>
    ensures { AskFor (map string_bytes words.now) result }
{
    match words {
        [path] => Request::Scene(path.as_str()),
        [word, other] => asked_by(word.as_str(), other.as_str()),
        _ => Request::Nothing,
    }
}
