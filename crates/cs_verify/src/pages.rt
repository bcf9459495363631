//! The hash pages of an image, held against the slots of its code directory.

ghost use Rattle.std.specs.Prelude.{◌≡◌, ◌*◌, ◌<◌, ◌≤◌, IfOk, OnOk, length, nat_lt, if◌then◌else◌};
ghost use Rattle.pg_bytes.specs.Counts.{RoseBy};
ghost use Rattle.cs_directory.specs.Directory.{IsDirectory};
ghost use Rattle.cs_directory.specs.HashPages.{bytes_of};
ghost use Rattle.cs_verify.specs.Pages.{hash_page, pages_of, slotted_pages, slotted_between, bad_between, bad_pages};
ghost use Rattle.cs_verify.specs.Pages as pages;

use crate::report::BadPage;
use cs_directory::Directory;
use pg_digest::{Digester, digest_bytes, digest_of};
use std::alloc::{AllocError, Global};

/// How many hash pages of its own size a code directory's limit reaches.
pub fn pages_of(directory: &Directory) -> u64
    ensures { result ≡ pages_of directory.now }
{
    directory.limit().div_ceil(directory.page_size())
}

/// The hash pages of an image that do not match or have no slot, ascending. Each that has a slot is hashed once.
pub fn bad_pages<D: Digester>(
    alloc: Global,
    directory: &Directory,
    directory_bytes: &[u8],
    image: &[u8],
    d: &mut D,
) -> Result<Vec<BadPage>, AllocError>
    requires directory { IsDirectory directory_bytes.now directory.now }
    requires limited { directory.now.limit ≤ length image.now }
    ensures bad { IfOk result (λ bad.
        bad.items ≡ bad_pages D.hash directory.now directory_bytes.now image.now) }
    ensures digests { OnOk result
        (RoseBy (slotted_pages directory.now) (D.calls d.old) (D.calls d.new)) }
{
    let signed = &image[..directory.limit() as usize];
    bad_between(
        alloc,
        directory,
        directory_bytes,
        signed,
        0,
        pages_of(directory),
        d,
    )
}

/// Of the hash pages from one number on, below another, those that do not match or have no slot, ascending. Each that
/// has a slot is hashed once.
pub fn bad_between<D: Digester>(
    alloc: Global,
    directory: &Directory,
    directory_bytes: &[u8],
    signed: &[u8],
    from: u64,
    to: u64,
    d: &mut D,
) -> Result<Vec<BadPage>, AllocError>
    requires directory { IsDirectory directory_bytes.now directory.now }
    requires signed { length signed.now ≡ directory.now.limit }
    requires within { to ≤ pages_of directory.now }
    ensures bad { IfOk result (λ bad. bad.items ≡
        bad_between D.hash directory.now directory_bytes.now signed.now from to) }
    ensures digests { OnOk result
        (RoseBy (slotted_between directory.now from to) (D.calls d.old) (D.calls d.new)) }
{
    let mut bad = Vec::new(alloc);
    for page in from..to {
        if let Some(wrong) = bad_page(directory, directory_bytes, signed, page, d) {
            bad.push(wrong)?;
        }
    }
    Ok(bad)
}

/// The bytes of one hash page of a size: the last may be short.
#[tactic(auto, unfolding(crate::specs::Pages::hash_page))]
fn hash_page(size: u64, signed: &[u8], page: u64) -> &[u8]
    requires { page * size < length signed.now }
    ensures { result.now ≡ hash_page size signed.now page }
{
    let (_, rest) = signed.split_at((page * size) as usize);
    &rest[..(size as usize).min(rest.len())]
}

/// What is wrong with one hash page, if anything is.
#[tactic(auto, unfolding(crate::specs::Pages::bad_page))]
fn bad_page<D: Digester>(
    directory: &Directory,
    directory_bytes: &[u8],
    signed: &[u8],
    page: u64,
    d: &mut D,
) -> Option<BadPage>
    requires directory { IsDirectory directory_bytes.now directory.now }
    requires inside { page * bytes_of directory.now.page < length signed.now }
    ensures wrong { result ≡
        pages.bad_page D.hash directory.now directory_bytes.now signed.now page }
    ensures once { RoseBy (if nat_lt page directory.now.code_slots then 1 else 0)
        (D.calls d.old) (D.calls d.new) }
{
    let Some(wanted) = directory.slot(directory_bytes, page) else {
        return Some(BadPage {
            page,
            found: None,
            wanted: None,
        });
    };
    let bytes = hash_page(directory.page_size(), signed, page);
    let found = d.hash(directory.kind(), bytes);
    if digest_bytes(&found) == wanted {
        return None;
    }
    Some(BadPage {
        page,
        found: Some(found),
        wanted: digest_of(wanted),
    })
}
