// A file is asked for an event that takes no memory.

ghost use Rattle.std.specs.Prelude.{◌<◌, length};
ghost use Rattle.cs_policy.specs.declared.entry.Event.TheVariants as event;
ghost use Rattle.cs_policy.specs.declared.entry.Place.TheVariants as place;
ghost use Rattle.pg_calls.specs.Parts.{HasRoom, Asks};
ghost use Rattle.pg_calls.specs.Asking.{TakesMemory, IsProperPlain};

use crate::file_call::FileCall;
use crate::parts::Parts;
use cs_policy::{Entry, FileEvent, Who};
use pg_book::Receipt;

pub(crate) fn ask_file<T: Parts>(
    parts: &mut T,
    who: Who,
    file: u32,
    asked: FileEvent,
) -> Receipt<Entry>
    requires serves { T.serves parts.old who.worker }
    requires declared { file < length (T.shows parts.old).numbers.files }
    requires proper { IsProperPlain (T.shows parts.old).numbers file asked }
    requires room { HasRoom (T.shows parts.old) who (place.File file) (event.File asked) }
    requires free { TakesMemory asked → ⊥ }
    ensures asks { Asks (T.shows parts.old) who (place.File file) (event.File asked) result
        (T.shows parts.new) }
    ensures serves { T.serves parts.new who.worker }
{
    let Ok(receipt) = parts.file(who, file, FileCall::Plain(asked)) else {
        unreachable!()
    };
    receipt
}
