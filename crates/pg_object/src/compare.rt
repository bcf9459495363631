//! A page beside the slots of a signature.

ghost use Rattle.std.specs.Prelude.{◌≡◌, ◌+◌, ◌*◌, ◌/◌, ◌<◌, ◌≤◌, ◌^◌, Some, IfSome, length, take, option_copied};
ghost use Rattle.std.specs.List.{concat};
ghost use Rattle.pg_digest.specs.Kinds.{size_of};
ghost use Rattle.pg_io.specs.PageBytes.{written_over};
ghost use Rattle.cs_directory.specs.Directory.{IsDirectory, slot_at};
ghost use Rattle.pg_plain.specs.Covers.{hash_page, begins};
ghost use Rattle.pg_object.specs.Seals.{slots_of};
ghost use Rattle.pg_object.specs.Enters.{Holds, Looks};

use crate::kept::begins;
use cs_blob::Blob;
use cs_policy::Denial;
use pg_digest::{Digest, Digester, digest_bytes, digest_of};
use pg_io::Pager;
use pg_pages::{Check, PagerFault, Pages};

// Room for four digests of 48 bytes: a page has at most four hash pages.
const ROOM: usize = 192;

// The digests that a signature wants of a page, one after another, from the slot `first` on.
#[derive(Drop)]
struct Wanted {
    first: u64,
    digests: [u8; ROOM],
    used: usize,
}

// Holds a page against the slots of the signature that covers it: the first hash page that does not hash to its slot
// is told. No writer maps the page.
pub(crate) fn compare<P: Pager, D: Digester>(
    pages: &mut Pages<P, D>,
    blob: &Blob,
    page: u64,
) -> Result<Option<Denial>, PagerFault>
    requires inside { page < pages.old.cache.pager.pages }
    requires holds { Holds pages.old.cache.pager.page_size blob.now page }
    ensures { Looks D.hash pages.old.cache.pager.page_size (Some blob.now) pages.old page result pages.new }
{
    pages.clear_writable(page);
    let wanted = wanted_of(blob, pages.page_size(), page);
    let part = blob.best().page_size() as u32;
    match pages.check(
        page,
        blob.best().kind(),
        part,
        &wanted.digests[..wanted.used],
    )? {
        Check::Sealed => Ok(None),
        Check::NotSealed { part, found } => {
            let slot = wanted.first + u64::from(part);
            Ok(Some(Denial::Mismatch {
                page,
                slot,
                found,
                wanted: slot_of(blob, slot),
            }))
        }
    }
}

// The digest in a code slot.
fn slot_of(blob: &Blob, i: u64) -> Digest
    requires directory { IsDirectory blob.now.best_bytes blob.now.best }
    requires inside { i < blob.now.best.code_slots }
    ensures value { result ≡ slot_at blob.now.best_bytes i }
    ensures size { length result ≡ size_of blob.now.best.kind }
{
    let slot = blob.best().slot(blob.best_bytes(), i).unwrap();
    digest_of(slot).unwrap()
}

// The digests of the slots of a page.
fn wanted_of(blob: &Blob, size: u32, page: u64) -> Wanted
    requires holds { Holds size blob.now page }
    ensures first { result.first ≡ begins size blob.now page / hash_page blob.now }
    ensures digests { take result.used result.digests ≡ concat (slots_of size blob.now page) }
    ensures used { result.used ≡ size / hash_page blob.now * size_of blob.now.best.kind }
    ensures room { result.used ≤ 192 }
    ensures few { result.first < 2 ^ 52 }
{
    let hash_page = blob.best().page_size();
    let first = begins(blob, size, page) / hash_page;
    let mut digests = [0; ROOM];
    let mut used = 0;
    for k in 0..u64::from(size) / hash_page {
        let slot = slot_of(blob, first + k);
        used += put(&mut digests, used, &slot);
    }
    Wanted {
        first,
        digests,
        used,
    }
}

// Puts a digest among others.
fn put(digests: &mut [u8], at: usize, digest: &Digest) -> usize
    requires { at + length digest.now ≤ length digests.old }
    ensures put { digests.new ≡ written_over digests.old at digest.now }
    ensures length { result ≡ length digest.now }
{
    let bytes = digest_bytes(digest);
    digests[at..at + bytes.len()].copy_from_slice(bytes);
    bytes.len()
}

// Brings a page where its bytes can be seen, and holds it against the slots of a signature, if there is one.
pub(crate) fn look<P: Pager, D: Digester>(
    pages: &mut Pages<P, D>,
    blob: Option<&Blob>,
    page: u64,
) -> Result<Option<Denial>, PagerFault>
    requires inside { page < pages.old.cache.pager.pages }
    requires holds { IfSome blob (λ blob. Holds pages.old.cache.pager.page_size blob.now page) }
    ensures { Looks D.hash pages.old.cache.pager.page_size (option_copied blob.entry) pages.old page result pages.new }
{
    match blob {
        Some(blob) => compare(pages, blob, page),
        None => {
            pages.peek(page)?;
            Ok(None)
        }
    }
}
