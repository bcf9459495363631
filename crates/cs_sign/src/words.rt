//! The words of the command line.

ghost use Rattle.std.specs.Prelude.{◌≡◌, ◌≤◌, ◌<◌, length, map, option_map, string_bytes, IfSome};
ghost use Rattle.cs_sign.specs.Words.{page_named, sign_words, cache_paths, SignWords};
ghost use Rattle.cs_sign.specs.WordsView.{words_in};

use crate::request::HashPage;

/// What the words of `sign` name: the path of a file, the identifier, the size of hash pages, and the path of the
/// entitlements if there are some.
#[derive(Clone, Copy)]
pub(crate) struct Signing<'a> {
    pub path: &'a str,
    pub ident: &'a str,
    pub page: HashPage,
    pub entitlements: Option<&'a str>,
}

/// The size that a word names.
fn page_named(word: &str) -> Option<HashPage>
    ensures { result ≡ page_named word.now }
{
    match word {
        "4" => Some(HashPage::Four),
        "16" => Some(HashPage::Sixteen),
        _ => None,
    }
}

/// What the words name, where they are those of `sign`.
pub(crate) fn sign_words<'a>(words: &'a [String]) -> Option<Signing<'a>>
    ensures { option_map words_in result ≡ sign_words (map string_bytes words.now) }
{
    match words {
        [verb, path, ident, size] if verb.as_str() == "sign" => {
            let page = page_named(size.as_str())?;
            Some(Signing {
                path: path.as_str(),
                ident: ident.as_str(),
                page,
                entitlements: None,
            })
        }
        [verb, path, ident, size, entitlements] if verb.as_str() == "sign" => {
            let page = page_named(size.as_str())?;
            Some(Signing {
                path: path.as_str(),
                ident: ident.as_str(),
                page,
                entitlements: Some(entitlements.as_str()),
            })
        }
        _ => None,
    }
}

/// The paths that the words name, where they are those of `cache`: 1 to 64.
pub(crate) fn cache_paths<'a>(words: &'a [String]) -> Option<&'a [String]>
    ensures paths { option_map (λ paths. map string_bytes paths.now) result ≡ cache_paths (map string_bytes words.now) }
    ensures few { IfSome result (λ paths. length paths.now ≤ 64) }
{
    match words {
        [verb, paths @ ..] if verb.as_str() == "cache" && !paths.is_empty() && paths.len() <= 64 =>
            { Some(paths) }
        _ => None,
    }
}
