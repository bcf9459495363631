//! Building a trust cache.

ghost use Rattle.std.specs.Prelude.{◌≡◌, ◌++◌, ◌≤◌, length, OnOk, IfOk, IfErr};
ghost use Rattle.std.specs.BTreeSet.{btree_set_len};
ghost use Rattle.cs_sign.specs.Caches.{listed, entry_bytes, trust_cache, cache_rules, IsCache, IsTaken, IsCause};

use crate::refusal::CacheFail;
use std::alloc::{AllocError, Global};
use std::collections::BTreeSet;

/// The most entries that a trust cache may have.
const MOST: u64 = 65_536;

/// The number of the hash type SHA-256, which each entry has.
const SHA256: u8 = 2;

/// The cdhashes in the order of their bytes, each once.
fn sorted(alloc: Global, hashes: &[[u8; 20]]) -> Result<BTreeSet<[u8; 20]>, AllocError>
    ensures { IfOk result (λ set. set.keys ≡ listed hashes.now) }
{
    let mut set = BTreeSet::new(alloc);
    for hash in hashes {
        set.insert(*hash)?;
    }
    Ok(set)
}

/// Puts an entry behind the bytes.
fn put_entry(out: &mut Vec<u8>, hash: &[u8; 20], version: u32) -> Result<(), AllocError>
    ensures { OnOk result (out.new.items ≡ out.old.items ++ entry_bytes version hash.now) }
{
    out.extend_from_slice(hash)?;
    match version {
        2 => out.extend_from_slice(&[SHA256, 0, 0, 0]),
        _ => out.extend_from_slice(&[SHA256, 0]),
    }
}

/// A trust cache of these cdhashes.
fn written(
    alloc: Global,
    set: &BTreeSet<[u8; 20]>,
    uuid: &[u8; 16],
    version: u32,
) -> Result<Vec<u8>, AllocError>
    requires { length set.now.keys ≤ 65536 }
    ensures made { IfOk result (λ made. made.items ≡ trust_cache version uuid.now set.now.keys) }
    ensures number { OnOk result (length uuid.now ≡ 16) }
{
    let count = set.len() as u32;
    let mut out = Vec::with_capacity(alloc, 24 + 24 * count as usize)?;
    out.extend_from_slice(&version.to_le_bytes())?;
    out.extend_from_slice(uuid)?;
    out.extend_from_slice(&count.to_le_bytes())?;
    for hash in set.iter() {
        put_entry(&mut out, hash, version)?;
    }
    Ok(out)
}

/// A trust cache of these cdhashes, sorted and each once, with the hash type SHA-256 and zeros for the rest of each entry.
/// A reader of trust caches takes it, and a search in it finds these cdhashes and no others. The error is Version where
/// the version is neither 1 nor 2, and else TooMany where more than 65,536 different cdhashes are given; want of memory may
/// come in place of either.
pub fn cache(
    alloc: Global,
    hashes: &[[u8; 20]],
    uuid: [u8; 16],
    version: u32,
) -> Result<Vec<u8>, CacheFail>
    ensures made { IfOk result (λ made. IsCache hashes.now uuid version made.items) }
    ensures taken { IfOk result (λ made. IsTaken hashes.now version made.items) }
    ensures refused { IfErr result (IsCause hashes.now version) }
{
    if version != 1 && version != 2 {
        return Err(CacheFail::Version {
            v: u64::from(version),
        });
    }
    let set = sorted(alloc, hashes)?;
    let count = set.len() as u64;
    if count > MOST {
        return Err(CacheFail::TooMany { count });
    }
    Ok(written(alloc, &set, &uuid, version)?)
}
