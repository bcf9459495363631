use super::*;
use TrustReply::*;
use cs_policy::{Refusal, TRUST_FAMILY, TrustReply};
use cs_samples::{SIGNATURE_CDHASH as C, TRUST_CACHE, put};
use cs_trust::{Module, StaticTrust, TrustFail, module};
use std::alloc::Global;
use std::sync::Arc;
use std::test::Fail;

const D: [u8; 20] = [0xd2; 20];

const E: [u8; 20] = [0xe3; 20];

/// The bytes of a trust cache of version 1 with these entries.
fn text(alloc: Global, entries: &[[u8; 20]]) -> Result<Vec<u8>, NoMemory> {
    let mut bytes = Vec::new(alloc);
    bytes.extend_from_slice(&1_u32.to_le_bytes())?;
    bytes.extend_from_slice(&[0; 16])?;
    bytes.extend_from_slice(
        &u32::try_from(entries.len())
            .unwrap_or(u32::MAX)
            .to_le_bytes(),
    )?;
    for entry in entries {
        bytes.extend_from_slice(entry)?;
        bytes.extend_from_slice(&[2, 0])?;
    }
    Ok(bytes)
}

/// A declared cache, as its bytes are read.
fn declared(alloc: Global, bytes: &[u8]) -> Result<Result<Module, Refusal>, NoMemory> {
    match module(alloc, bytes) {
        Ok(read) => Ok(Ok(read)),
        Err(TrustFail::Refused(refusal)) => Ok(Err(Refusal::from(refusal))),
        Err(TrustFail::NoMemory) => Err(NoMemory),
    }
}

#[test]
fn empty_cache(rt: HostRuntime) -> Result<(), Fail> {
    let fixed = Arc::new(rt.alloc(), StaticTrust::new(Vec::new(rt.alloc())))?;
    let bytes = text(rt.alloc(), &[])?;
    assert_eq!(rt; bytes.len(), 24);
    let caches = vec![in rt.alloc(); declared(rt.alloc(), &bytes)?]?;
    let mut list = Trusted::open(rt.alloc(), fixed, caches)?;
    assert_eq!(rt; list.load(0), Loaded { module: 0 });
    assert_eq!(rt; list.lookup(&C), Unlisted);
    Ok(())
}

/// A trust cache was refused by this rule, with this argument.
fn refused(number: u8, a: u64) -> TrustReply {
    Refused(Refusal {
        family: TRUST_FAMILY,
        number,
        a,
        b: 0,
    })
}

#[test]
fn refused_caches(rt: HostRuntime) -> Result<(), Fail> {
    let fixed = Arc::new(rt.alloc(), StaticTrust::new(Vec::new(rt.alloc())))?;
    let caches = vec![in rt.alloc();
        declared(rt.alloc(), &TRUST_CACHE[..45])?,
        declared(rt.alloc(), &text(rt.alloc(), &[D, C])?)?,
    ]?;
    let mut list = Trusted::open(rt.alloc(), fixed, caches)?;
    assert_eq!(rt; list.load(0), refused(3, 0));
    assert_eq!(rt; list.load(1), refused(4, 1));
    assert_eq!(rt; list.lookup(&C), Unlisted);
    Ok(())
}

#[test]
fn caches_of_version_2(rt: HostRuntime) -> Result<(), Fail> {
    let mut bytes = TRUST_CACHE.to_vec(rt.alloc())?;
    put(&mut bytes, 0, &[2]);
    bytes.extend_from_slice(&[0, 0])?;
    assert_eq!(rt; bytes.len(), 48);
    let most = bytes.len().saturating_sub(1);
    let cut = declared(rt.alloc(), &bytes.as_slice()[..most])?;
    let fixed = Arc::new(rt.alloc(), StaticTrust::new(Vec::new(rt.alloc())))?;
    let mut third = [0; 24];
    third[0] = 3;
    let caches = vec![in rt.alloc();
        cut,
        declared(rt.alloc(), &third)?,
        declared(rt.alloc(), &bytes)?,
    ]?;
    let mut list = Trusted::open(rt.alloc(), fixed, caches)?;
    assert_eq!(rt; list.load(0), refused(3, 0));
    assert_eq!(rt; list.load(1), refused(2, 3));
    assert_eq!(rt; list.load(2), Loaded { module: 0 });
    assert_eq!(rt;
        list.lookup(&C),
        Listed {
            module: 0,
            place: 0
        }
    );
    Ok(())
}

#[test]
fn one_cache_many_times(rt: HostRuntime) -> Result<(), Fail> {
    let fixed = Arc::new(rt.alloc(), StaticTrust::new(Vec::new(rt.alloc())))?;
    let caches = vec![in rt.alloc(); declared(rt.alloc(), &TRUST_CACHE)?]?;
    let mut list = Trusted::open(rt.alloc(), fixed, caches)?;
    for module in 0..64 {
        assert_eq!(rt; list.load(0), Loaded { module });
    }
    assert_eq!(rt; list.load(0), Full { limit: 64 });
    assert_eq!(rt;
        list.lookup(&C),
        Listed {
            module: 0,
            place: 0
        }
    );
    Ok(())
}

#[test]
fn static_before_loaded(rt: HostRuntime) -> Result<(), Fail> {
    let modules = vec![in rt.alloc(); Module::one(rt.alloc(), C)?]?;
    let fixed = Arc::new(rt.alloc(), StaticTrust::new(modules))?;
    let caches = vec![in rt.alloc();
        declared(rt.alloc(), &TRUST_CACHE)?,
        declared(rt.alloc(), &text(rt.alloc(), &[C, D, D])?)?,
    ]?;
    let mut list = Trusted::open(rt.alloc(), fixed, caches)?;
    assert_eq!(rt; list.lookup(&D), Unlisted);
    assert_eq!(rt; list.load(0), Loaded { module: 1 });
    assert_eq!(rt; list.load(1), Loaded { module: 2 });
    for (cdhash, reply) in [
        (
            C,
            Listed {
                module: 0,
                place: 0,
            },
        ),
        (
            D,
            Listed {
                module: 2,
                place: 1,
            },
        ),
        (E, Unlisted),
    ] {
        assert_eq!(rt; list.lookup(&cdhash), reply);
    }
    assert_eq!(rt; list.fixed().look(&C), Some((0, 0)));
    assert_eq!(rt; list.fixed().look(&D), None);
    Ok(())
}

/// A cdhash that begins with this number.
fn numbered(number: u32) -> [u8; 20] {
    let mut cdhash = [0; 20];
    cdhash[..4].copy_from_slice(&number.to_be_bytes());
    cdhash
}

#[test]
fn most_entries(rt: HostRuntime) -> Result<(), Fail> {
    let mut entries = Vec::new(rt.alloc());
    for number in 0..65_536 {
        entries.push(numbered(number))?;
    }
    let bytes = text(rt.alloc(), &entries)?;
    assert_eq!(rt; bytes.len(), 1_441_816);
    let fixed = Arc::new(rt.alloc(), StaticTrust::new(Vec::new(rt.alloc())))?;
    let caches = vec![in rt.alloc(); declared(rt.alloc(), &bytes)?]?;
    let mut list = Trusted::open(rt.alloc(), fixed, caches)?;
    assert_eq!(rt; list.load(0), Loaded { module: 0 });
    assert_eq!(rt;
        list.lookup(&numbered(65_535)),
        Listed {
            module: 0,
            place: 65_535
        }
    );
    assert_eq!(rt; list.lookup(&numbered(65_536)), Unlisted);
    Ok(())
}
