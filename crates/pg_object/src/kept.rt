//! An attached signature.

ghost use Rattle.std.specs.Prelude.{◌≡◌, ◌<◌, ◌^◌, IsTrue, find, option_copied, option_map};
ghost use Rattle.pg_bytes.specs.PageSize.{is_page_size};
ghost use Rattle.pg_plain.specs.Covers.{Fits, first_covered, end_covered, covers, begins, is_below_limit};

use cs_blob::Blob;
use std::marker::Model;

// A signature, and the number of the slice that it signs.
#[derive(Drop)]
pub struct Kept {
    pub(crate) slice: u32,
    pub(crate) blob: Blob,
}

impl Model for Kept {
    ghost use Rattle.pg_plain.specs.PlainFile.{Attached};

    ghost Value = { Attached };

    ghost view = { λ kept. record { slice = kept.slice; signature = kept.blob } };
}

// The first page that a signature covers, where a page has `size` bytes.
pub(crate) fn first_covered(blob: &Blob, size: u32) -> u64
    requires { IsTrue (is_page_size size) }
    ensures first { result ≡ first_covered size blob.now }
    ensures few { result < 2 ^ 52 }
{
    blob.slice().at / u64::from(size)
}

// The first page behind those that a signature covers.
pub(crate) fn end_covered(blob: &Blob, size: u32) -> u64
    requires { IsTrue (is_page_size size) }
    ensures { result ≡ end_covered size blob.now }
{
    first_covered(blob, size) + blob.best().limit().div_ceil(u64::from(size))
}

// Whether a signature covers a page.
pub(crate) fn covers(blob: &Blob, size: u32, page: u64) -> bool
    requires { IsTrue (is_page_size size) }
    ensures { result ≡ covers size blob.now page }
{
    first_covered(blob, size) <= page && page < end_covered(blob, size)
}

// The attached signature that covers a page, if one does.
pub(crate) fn covering(kept: &[Kept], size: u32, page: u64) -> Option<&Blob>
    requires { IsTrue (is_page_size size) }
    ensures { option_copied result ≡ option_map (λ attached. attached.signature) (find (λ attached. covers size attached.signature page) kept.now) }
{
    let one = kept.iter().find(|one| covers(&one.blob, size, page))?;
    Some(&one.blob)
}

// The byte of the slice at which a page that is covered begins.
pub(crate) fn begins(blob: &Blob, size: u32, page: u64) -> u64
    requires size { IsTrue (is_page_size size) }
    requires covers { IsTrue (covers size blob.now page) }
    requires fits { Fits size blob.now }
    ensures value { result ≡ begins size blob.now page }
    ensures below { result < blob.now.best.limit }
{
    let _limit = blob.best().limit();
    (page - first_covered(blob, size)) * u64::from(size)
}

// Whether the whole page lies below a signature's limit, and each of its hash pages has a slot.
pub(crate) fn is_below_limit(blob: &Blob, size: u32, page: u64) -> bool
    requires size { IsTrue (is_page_size size) }
    requires covers { IsTrue (covers size blob.now page) }
    requires fits { Fits size blob.now }
    ensures { result ≡ is_below_limit size blob.now page }
{
    let begins = begins(blob, size, page);
    let size = u64::from(size);
    let limit = blob.best().limit();
    limit - begins >= size && (begins + size) / blob.best().page_size() <= blob.best().slots()
}
