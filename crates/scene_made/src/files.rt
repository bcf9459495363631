//! The files of a made scene.

ghost use Rattle.std.specs.Prelude.{◌≡◌, ◌≤◌, ◌<◌, ◌++◌, take, IfOk};
ghost use Rattle.pg_digest.specs.Digests.{sha_hash};
ghost use Rattle.scene_made.specs.Made.{header, body, slots, file_bytes, cdhash_of};
ghost use Rattle.scene_made.specs.Made as specs;

use crate::NoMemory;
use pg_digest::{Digester, HashKind, ShaDigester, digest_bytes};
use std::alloc::Global;

/// The header of a code directory of 64 slots, and its identifier, which is "g".
const HEADER: [u8; 90] = [
    0xfa, 0xde, 0x0c, 0x02, 0, 0, 0x08, 0x5a, // magic, length
    0, 2, 4, 0, 0, 2, 0, 2, // version, flags
    0, 0, 0, 90, 0, 0, 0, 88, // hash offset, identifier offset
    0, 0, 0, 0, 0, 0, 0, 64, // special slots, code slots
    0, 4, 0, 0, 32, 2, 0, 12, // limit, hash size, hash type, platform, page size
    0, 0, 0, 0, 0, 0, 0, 0, // spare, scatter offset
    0, 0, 0, 0, 0, 0, 0, 0, // team offset, spare
    0, 0, 0, 0, 0, 0, 0, 0, // limit in 64 bits
    0, 0, 0, 0, 0, 0, 0, 0, // executable segment: base
    0, 0, 0, 0, 0, 4, 0, 0, // its limit
    0, 0, 0, 0, 0, 0, 0, 1, // its flags
    b'g', 0, // identifier
];

/// A file: its bytes, and the cdhash of its code directory.
#[derive(Drop)]
pub struct Signed {
    pub bytes: Vec<u8>,
    pub cdhash: [u8; 20],
}

/// A byte of a page.
fn byte(n: u64, file: u64, page: u64, at: u64) -> u8
    requires n { n ≤ 1000 }
    requires file { file < 4 }
    requires page { page < 64 }
    requires at { at < 4096 }
    ensures { result ≡ specs.byte_of n file page at }
{
    ((n + 7 * file + 11 * page + at) % 256) as u8
}

/// A page of a file.
#[tactic(auto, unfolding(crate::specs::Made::page_of))]
fn page(alloc: Global, n: u64, file: u64, page: u64) -> Result<Vec<u8>, NoMemory>
    requires n { n ≤ 1000 }
    requires file { file < 4 }
    requires page { page < 64 }
    ensures { IfOk result (λ v. v.items ≡ specs.page_of n file page) }
{
    (0..4096).map(|at| byte(n, file, page, at)).collect(alloc)
}

/// The pages of a file, and the code slots for them.
#[tactic(auto, unfolding(crate::specs::Made::body, crate::specs::Made::slots))]
fn pages(
    alloc: Global,
    n: u64,
    file: u64,
    digester: &mut ShaDigester,
) -> Result<(Vec<u8>, Vec<u8>), NoMemory>
    requires n { n ≤ 1000 }
    requires file { file < 4 }
    ensures body { IfOk result (λ made. made.0.items ≡ body n file) }
    ensures slots { IfOk result (λ made. made.1.items ≡ slots sha_hash n file) }
{
    let mut body = Vec::with_capacity(alloc, 64 * 4096 + 2138)?;
    let mut slots = Vec::with_capacity(alloc, 64 * 32)?;
    for number in 0..64 {
        let bytes = page(alloc, n, file, number)?;
        body.extend_from_slice(&bytes)?;
        slots.extend_from_slice(digest_bytes(&digester.hash(HashKind::Sha256, &bytes)))?;
    }
    Ok((body, slots))
}

/// The code directory with these slots.
fn directory(alloc: Global, slots: &[u8]) -> Result<Vec<u8>, NoMemory>
    ensures { IfOk result (λ v. v.items ≡ header ++ slots.now) }
{
    let mut bytes = HEADER.to_vec(alloc)?;
    bytes.extend_from_slice(slots)?;
    Ok(bytes)
}

/// The cdhash of a code directory of hash type SHA-256.
fn cdhash(directory: &[u8], digester: &mut ShaDigester) -> [u8; 20]
    ensures { result ≡ take 20 (sha_hash HashKind.Sha256 directory.now) }
{
    let digest = digester.hash(HashKind::Sha256, directory);
    let mut first = [0; 20];
    first.copy_from_slice(&digest_bytes(&digest)[..20]);
    first
}

/// The file of this number.
#[tactic(auto, unfolding(crate::specs::Made::file_bytes, crate::specs::Made::cdhash_of))]
pub fn file(
    alloc: Global,
    n: u64,
    file: u64,
    digester: &mut ShaDigester,
) -> Result<Signed, NoMemory>
    requires n { n ≤ 1000 }
    requires file { file < 4 }
    ensures bytes { IfOk result (λ made. made.bytes.items ≡ file_bytes sha_hash n file) }
    ensures cdhash { IfOk result (λ made. made.cdhash ≡ cdhash_of sha_hash n file) }
{
    let (mut bytes, slots) = pages(alloc, n, file, digester)?;
    let directory = directory(alloc, &slots)?;
    bytes.extend_from_slice(&directory)?;
    let cdhash = cdhash(&directory, digester);
    Ok(Signed { bytes, cdhash })
}
