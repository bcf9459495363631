//! The words of the command line.

ghost use Rattle.std.specs.Prelude.{◌≡◌, IfOk, IfErr, OnOk, IsFalse, Some, map, string_bytes};
ghost use Rattle.csverify.specs.Words.{path_of, is_refused, IsFaultIn};

use clap::{Arg, ArgAction, Command, Error};
use std::alloc::Global;

/// The path that the words name, which do not name the program: one word, where it is no option. The word `--` ends
/// the options; `-` and an empty word are paths.
pub fn path_of<'a>(alloc: Global, words: &'a [String]) -> Result<&'a str, Error>
    ensures path { IfOk result (λ path. path_of (map string_bytes words.now) ≡ Some path.now) }
    ensures accepted { OnOk result (IsFalse (is_refused (map string_bytes words.now))) }
    ensures fault { IfErr result (IsFaultIn (map string_bytes words.now)) }
{
    let path = Arg::new(alloc, "PATH")
        .required(true)
        .action(ArgAction::Set);
    let command = Command::new(alloc, "csverify")
        .no_binary_name(true)
        .arg(path)?;
    let matches = command.try_get_matches_from(words)?;
    match matches.get_str("PATH") {
        Some(path) => Ok(path),
        None => unreachable!(),
    }
}
