//! The lines of a text, one after another.

ghost use Rattle.std.specs.Prelude.{◌≡◌, ◌<◌, ◌∷◌, length, IfSome, position};
ghost use Rattle.pg_words.specs.Lines.{lines_of, is_break};
ghost use Rattle.pg_words.specs.Cut.{lines_behind};

/// The place of the first LF.
fn first_break(text: &[u8]) -> Option<usize>
    ensures { result ≡ position is_break text.now }
{
    text.iter().position(|b| *b == b'\n')
}

/// The first line of a text, and the text behind the LF that ends it, if there is one.
#[tactic(auto, using(crate::proofs::CutFacts::lines_at, crate::proofs::CutFacts::one_line))]
pub fn cut(text: &[u8]) -> (&[u8], Option<&[u8]>)
    ensures lines { lines_of text.now ≡ result.0.now ∷ lines_behind result.1 }
    ensures shorter { IfSome result.1 (λ rest. length rest.now < length text.now) }
{
    match first_break(text) {
        Some(at) => (&text[..at], Some(&text[at + 1..])),
        None => (text, None),
    }
}
