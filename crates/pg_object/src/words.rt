//! The words of tables: the calls on a file and what it replies.

use bitflags::Flags;
use cs_policy::{Access, Denial, FileReply, ProcFlags, Prot};
use pg_digest::{Digest, digest_bytes};
use std::alloc::Global;
use std::test::Fail;

// SHA-256 digests with their names, by Python's hashlib: of 4,096 bytes of one value; of 0xff before 4,095 bytes of one;
// and of 4,000 bytes 0x41 before 96 bytes 0xff.
fn digests() -> &'static str {
    "block_41 6896d9ea3f73a4434f5832bc65714e7d066f177373f36f34dc8a6f735daa41b1
cut_41 7dd9c361924a0d0071d52c70bc92f1219f7369b4411d9f3eb552960ae8e61258
block_42 725bcd6c66d02acf6ebeab9c92410e010ea22e336876256aaf05a211f4ce1902
changed_42 b3e4aef8662c0b68ddfdb42424ddaadc68ef96a20b0cb29139b02b4f74fb92ca
block_43 b23f99e1f653e62fa5bc14cc528a9ec3b6d11be482b2ee51b519d1d6ad8c5466
changed_43 a2783dce4bff17afbdc3850298bf05137fb1c7fd03885b4f2fa920e3030040e2"
}

pub(crate) fn number(word: &str) -> Result<u64, Fail> {
    match word.parse::<u64>() {
        Ok(number) => Ok(number),
        Err(_) => Err("number".into()),
    }
}

pub(crate) fn small(word: &str) -> Result<u32, Fail> {
    match word.parse::<u32>() {
        Ok(number) => Ok(number),
        Err(_) => Err("number".into()),
    }
}

pub(crate) fn byte(word: &str) -> Result<u8, Fail> {
    match word.parse::<u8>() {
        Ok(byte) => Ok(byte),
        Err(_) => Err("byte".into()),
    }
}

pub(crate) fn access(word: &str) -> Result<Access, Fail> {
    match word {
        "r" => Ok(Access::Read),
        "w" => Ok(Access::Write),
        "x" => Ok(Access::Execute),
        _ => Err("access".into()),
    }
}

pub(crate) fn prot(word: &str) -> Result<Prot, Fail> {
    match word {
        "r" => Ok(Prot::R),
        "rw" => Ok(Prot::RW),
        "rx" => Ok(Prot::RX),
        "rwx" => Ok(Prot::RWX),
        _ => Err("prot".into()),
    }
}

pub(crate) fn is_shared(word: &str) -> Result<bool, Fail> {
    match word {
        "shared" => Ok(true),
        "private" => Ok(false),
        _ => Err("share".into()),
    }
}

// The flags of a process, and their number.
pub(crate) fn flags(word: &str) -> Result<ProcFlags, Fail> {
    Ok(ProcFlags::from_bits_retain(flag_bits(word)?))
}

fn flag_bits(word: &str) -> Result<u32, Fail> {
    match word {
        "guarded" => Ok(0x1000),
        "free" => Ok(0x1),
        "debugged" => Ok(0x1000_1001),
        _ => Err("call".into()),
    }
}

// The name of a digest, where it has one.
fn name_of(alloc: Global, digest: &Digest) -> Result<&'static str, Fail> {
    let digits = digits_of(alloc, digest_bytes(digest))?;
    Ok(named(digests(), digits.as_str()))
}

fn digits_of(alloc: Global, bytes: &[u8]) -> Result<String, Fail> {
    let mut text = String::new(alloc);
    for byte in bytes {
        text.push_str(format!(in alloc; "{byte:02x}")?.as_str())?;
    }
    Ok(text)
}

// The name in front of these digits in a table.
fn named<'a>(table: &'a str, digits: &str) -> &'a str {
    for line in table.lines() {
        if let Some((name, own)) = line.split_once(' ') {
            if own == digits {
                return name;
            }
        }
    }
    "another"
}

fn mismatch(
    alloc: Global,
    page: u64,
    slot: u64,
    found: &Digest,
    wanted: &Digest,
) -> Result<String, Fail> {
    let found = name_of(alloc, found)?;
    let wanted = name_of(alloc, wanted)?;
    Ok(format!(in alloc; "mismatch {page} {slot} {found} {wanted}")?)
}

// Bytes are told by the first and their number.
fn got(alloc: Global, bytes: &[u8]) -> Result<String, Fail> {
    let first = bytes.first().copied().unwrap_or(0);
    let count = bytes.len();
    Ok(format!(in alloc; "got {first} {count}")?)
}

// What a reply says.
pub(crate) fn told_by(alloc: Global, reply: &FileReply) -> Result<String, Fail> {
    match reply {
        FileReply::Given {
            victim: None,
            violation: None,
        } => Ok(format!(in alloc; "given")?),
        FileReply::Denied(
            Denial::Mismatch {
                page,
                slot,
                found,
                wanted,
            },
        ) => mismatch(alloc, *page, *slot, found, wanted),
        FileReply::NoSlices(refusal) => Ok(format!(in alloc; "noslices {refusal}")?),
        FileReply::Read { bytes } => {
            let count = bytes.bytes().len();
            Ok(format!(in alloc; "read {count}")?)
        }
        FileReply::Got { bytes } => got(alloc, bytes.bytes()),
        _ => Ok(format!(in alloc; "{reply:?}")?),
    }
}
