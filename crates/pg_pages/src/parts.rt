//! The parts of a page beside the digests that are wanted of them.

ghost use Rattle.std.specs.Prelude.{◌≡◌, ◌+◌, ◌*◌, ◌/◌, ◌%◌, ◌<◌, ◌≤◌, IsTrue, length};
ghost use Rattle.pg_bytes.specs.Counts.{Rose};
ghost use Rattle.pg_digest.specs.Kinds.{size_of};
ghost use Rattle.pg_pages.specs.Marks.{seal_of};
ghost use Rattle.pg_pages.specs.Pages.{Answers, hashed};

use crate::check::Check;
use pg_digest::{Digester, HashKind, digest_bytes, size};

// Holds each part of a page against its digest, from the first on, until one differs.
pub(crate) fn compare<D: Digester>(
    digester: &mut D,
    bytes: &[u8],
    kind: HashKind,
    part: u32,
    wanted: &[u8],
) -> Check
    requires part { 0 < part }
    requires some { part ≤ length bytes.now }
    requires few { length bytes.now ≤ 16384 }
    requires digests { length bytes.now / part * size_of kind ≡ length wanted.now }
    ensures answer { Answers D.hash (seal_of kind part wanted.now) bytes.now result }
    ensures counted { Rose (D.calls digester.old) (D.calls digester.new) }
    ensures once { D.calls digester.new ≤ D.calls digester.old + hashed (length bytes.now / part) result }
{
    let part = part as usize;
    let size = usize::from(size(kind));
    let count = bytes.len() / part;
    let mut place = 0;
    while place < count {
        let piece = &bytes[place * part..place * part + part];
        let found = digester.hash(kind, piece);
        if digest_bytes(&found) != &wanted[place * size..place * size + size] {
            return Check::NotSealed {
                part: place as u32,
                found,
            };
        }
        place += 1;
    }
    Check::Sealed
}
