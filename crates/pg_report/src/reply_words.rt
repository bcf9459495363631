//! Printing replies.

ghost use Rattle.std.specs.Prelude.{◌≡◌, ◌++◌, ◌∷◌, [], OnOk, codes, decimal};
ghost use Rattle.pg_words.specs.Digits.{flags_text};
ghost use Rattle.cs_policy.specs.ProcFlags.{number_of};
ghost use Rattle.pg_words.specs.Lines.{spaced};
ghost use Rattle.cs_policy.specs.declared.denial.Denial.TheVariants as denial;
ghost use Rattle.cs_policy.specs.declared.process.ProcReply.TheVariants as proc;
ghost use Rattle.pg_report.specs.Forms.{bit_files, files_text};
ghost use Rattle.pg_report.specs.Denials.{denial_words, violation_words};
ghost use Rattle.pg_report.specs.ReplyTable.{victim_words};
ghost use Rattle.pg_report.specs.Replies.{file_reply_words, proc_reply_words, trust_reply_words, reply_words, file_read_count, read_count};
ghost use Rattle.pg_report.specs.ReplyParts.{comma_unless, listed};
ghost use Rattle.pg_words.specs.Names.{file_text};

use crate::event_words::{add_count, add_refusal};
use bitflags::Flags;
use cs_policy::{Denial, FileReply, ProcFlags, ProcReply, Reply, TrustReply};
use pg_digest::digest_bytes;
use pg_words::{add_flags, add_hex, add_name, add_number, add_word, put, put_number};
use std::alloc::{AllocError, Global};

/// A page whose bytes have another digest than its slot.
fn add_mismatch(
    alloc: Global,
    text: &mut Vec<u8>,
    page: u64,
    slot: u64,
    found: &[u8],
    wanted: &[u8],
) -> Result<(), AllocError>
    ensures { OnOk result (text.new.items ≡
        text.old.items ++ spaced (denial_words (denial.Mismatch page slot found.now wanted.now))) }
{
    put(text, b" mismatch")?;
    add_number(text, page)?;
    add_number(text, slot)?;
    add_hex(alloc, text, found)?;
    add_hex(alloc, text, wanted)
}

/// A page that a shared region may write.
fn add_writable(text: &mut Vec<u8>, page: u64, region: u32) -> Result<(), AllocError>
    ensures { OnOk result (text.new.items ≡ text.old.items ++ spaced (denial_words (denial.WritableShared page region))) }
{
    add_count(text, b"writableshared", page)?;
    add_number(text, u64::from(region))
}

/// The rule that an access breaks.
fn add_denial(alloc: Global, text: &mut Vec<u8>, denial: &Denial) -> Result<(), AllocError>
    ensures { OnOk result (text.new.items ≡ text.old.items ++ spaced (denial_words denial.now)) }
{
    match *denial {
        Denial::PrivateCopy { page } => add_count(text, b"privatecopy", page),
        Denial::Unsigned { page } => add_count(text, b"unsigned", page),
        Denial::BeyondLimit { page } => add_count(text, b"beyondlimit", page),
        Denial::WritableShared { page, region } => add_writable(text, page, region),
        Denial::Mismatch {
            page,
            slot,
            found,
            wanted,
        } => add_mismatch(
            alloc,
            text,
            page,
            slot,
            digest_bytes(&found),
            digest_bytes(&wanted),
        ),
        Denial::SealedWrite { page } => add_count(text, b"sealedwrite", page),
    }
}

/// The page that left memory, if there is one.
fn add_victim(text: &mut Vec<u8>, victim: Option<u64>) -> Result<(), AllocError>
    ensures { OnOk result (text.new.items ≡ text.old.items ++ spaced (victim_words victim)) }
{
    match victim {
        Some(page) => {
            put(text, b" victim")?;
            add_number(text, page)
        }
        None => Ok(()),
    }
}

/// The rule that an access that was given breaks, if there is one.
fn add_violation(
    alloc: Global,
    text: &mut Vec<u8>,
    violation: &Option<Denial>,
) -> Result<(), AllocError>
    ensures { OnOk result (text.new.items ≡ text.old.items ++ spaced (violation_words violation.now)) }
{
    match violation {
        Some(denial) => {
            put(text, b" violation")?;
            add_denial(alloc, text, denial)
        }
        None => Ok(()),
    }
}

/// A word and flags.
fn add_word_flags(
    alloc: Global,
    text: &mut Vec<u8>,
    word: &[u8],
    flags: ProcFlags,
) -> Result<(), AllocError>
    ensures { OnOk result (text.new.items ≡
        text.old.items ++ spaced (word.now ∷ flags_text (number_of flags) ∷ [])) }
{
    add_word(text, word)?;
    add_flags(alloc, text, flags.bits())
}

/// An access that is given.
#[tactic(auto, using(crate::proofs::SpaceFacts::given_spaced))]
fn add_given(
    alloc: Global,
    text: &mut Vec<u8>,
    victim: Option<u64>,
    violation: &Option<Denial>,
) -> Result<(), AllocError>
    ensures { OnOk result (text.new.items ≡
        text.old.items ++ spaced (codes "given" ∷ (victim_words victim ++ violation_words violation.now))) }
{
    put(text, b" given")?;
    add_victim(text, victim)?;
    add_violation(alloc, text, violation)
}

/// One more file in a list of files.
fn put_file(text: &mut Vec<u8>, first: bool, file: u32) -> Result<(), AllocError>
    ensures { OnOk result (text.new.items ≡ text.old.items ++ (comma_unless first ++ file_text file)) }
{
    if first {
        put(text, b"f")?;
    } else {
        put(text, b",f")?;
    }
    put_number(text, u64::from(file))
}

/// A list of files has ended.
fn put_end(text: &mut Vec<u8>, none: bool) -> Result<(), AllocError>
    ensures { OnOk result (text.new.items ≡ text.old.items ++ listed none []) }
{
    if none {
        put(text, b"-")?;
    }
    Ok(())
}

/// The files of the bits of a number, as one word.
fn put_files(text: &mut Vec<u8>, files: u16) -> Result<(), AllocError>
    ensures { OnOk result (text.new.items ≡ text.old.items ++ files_text (bit_files 16 0 files)) }
{
    let mut rest = files;
    let mut first = true;
    for file in 0..16_u32 {
        if rest % 2 == 1 {
            put_file(text, first, file)?;
            first = false;
        }
        rest /= 2;
    }
    put_end(text, first)
}

/// A reply of a file, of whose bytes `read` are counted.
fn add_file_reply(alloc: Global, text: &mut Vec<u8>, reply: &FileReply) -> Result<(), AllocError>
    ensures { OnOk result (text.new.items ≡
        text.old.items ++ spaced (file_reply_words (file_read_count reply.now) reply.now)) }
{
    match reply {
        FileReply::NoSlices(refusal) => {
            put(text, b" noslices")?;
            add_refusal(alloc, text, refusal)
        }
        FileReply::NoSlice { count } => add_count(text, b"noslice", u64::from(*count)),
        FileReply::NoImage(refusal) => {
            put(text, b" noimage")?;
            add_refusal(alloc, text, refusal)
        }
        FileReply::PagerFault { page } => add_count(text, b"pagerfault", *page),
        FileReply::Read { bytes } => add_count(text, b"read", bytes.bytes().len() as u64),
        FileReply::Already { blob } => add_count(text, b"already", u64::from(*blob)),
        FileReply::Overlap { blob } => add_count(text, b"overlap", u64::from(*blob)),
        FileReply::Attached { blob } => add_count(text, b"attached", u64::from(*blob)),
        FileReply::Noted => put(text, b" noted"),
        FileReply::PastEnd { length } => add_count(text, b"pastend", *length),
        FileReply::Short { written } => add_count(text, b"short", *written),
        FileReply::Written { count } => add_count(text, b"written", *count),
        FileReply::Added => put(text, b" added"),
        FileReply::NoRegion { id } => add_count(text, b"noregion", u64::from(*id)),
        FileReply::Dropped => put(text, b" dropped"),
        FileReply::DroppedAll { count } => add_count(text, b"dropped", u64::from(*count)),
        FileReply::Denied(denial) => {
            put(text, b" denied")?;
            add_denial(alloc, text, denial)
        }
        FileReply::Given { victim, violation } => add_given(alloc, text, *victim, violation),
        FileReply::NotMapped => put(text, b" notmapped"),
        FileReply::Stored => put(text, b" stored"),
        FileReply::Got { bytes } => {
            put(text, b" bytes")?;
            add_hex(alloc, text, bytes.bytes())
        }
        FileReply::NotResident => put(text, b" notresident"),
        FileReply::Evicted => put(text, b" evicted"),
    }
}

/// A region, and which page of which file an address means.
fn add_found(
    alloc: Global,
    text: &mut Vec<u8>,
    id: u32,
    file: u32,
    page: u64,
    flags: ProcFlags,
) -> Result<(), AllocError>
    ensures { OnOk result (text.new.items ≡ text.old.items ++ spaced (proc_reply_words (proc.Region id file page flags))) }
{
    put(text, b" region")?;
    add_number(text, u64::from(id))?;
    add_name(text, b'f', file)?;
    add_number(text, page)?;
    add_flags(alloc, text, flags.bits())
}

/// A reply of a process.
fn add_proc_reply(alloc: Global, text: &mut Vec<u8>, reply: &ProcReply) -> Result<(), AllocError>
    ensures { OnOk result (text.new.items ≡ text.old.items ++ spaced (proc_reply_words reply.now)) }
{
    match *reply {
        ProcReply::Dead => put(text, b" dead"),
        ProcReply::Killed => put(text, b" killed"),
        ProcReply::Started { pid } => {
            put(text, b" started")?;
            add_name(text, b'p', pid)
        }
        ProcReply::Began { flags } => add_word_flags(alloc, text, b"began", flags),
        ProcReply::OutOfFile { pages } => add_count(text, b"outoffile", pages),
        ProcReply::Overlap { id } => add_count(text, b"overlap", u64::from(id)),
        ProcReply::Full { limit } => add_count(text, b"full", u64::from(limit)),
        ProcReply::Inserted { id } => add_count(text, b"inserted", u64::from(id)),
        ProcReply::NoMap => put(text, b" nomap"),
        ProcReply::Prot { id } => add_count(text, b"prot", u64::from(id)),
        ProcReply::Region {
            id,
            file,
            page,
            flags,
        } => add_found(alloc, text, id, file, page, flags),
        ProcReply::Removed { id, file } => {
            add_count(text, b"removed", u64::from(id))?;
            add_name(text, b'f', file)
        }
        ProcReply::Debugged { flags } => add_word_flags(alloc, text, b"debugged", flags),
        ProcReply::Kill => put(text, b" kill"),
        ProcReply::Spare => put(text, b" spare"),
        ProcReply::Cleared { flags } => add_word_flags(alloc, text, b"cleared", flags),
        ProcReply::Exited { files } => {
            put(text, b" exited ")?;
            put_files(text, files)
        }
    }
}

/// A reply of the trust list.
fn add_trust_reply(alloc: Global, text: &mut Vec<u8>, reply: &TrustReply) -> Result<(), AllocError>
    ensures { OnOk result (text.new.items ≡ text.old.items ++ spaced (trust_reply_words reply.now)) }
{
    match reply {
        TrustReply::Refused(refusal) => {
            put(text, b" refused")?;
            add_refusal(alloc, text, refusal)
        }
        TrustReply::Full { limit } => add_count(text, b"full", u64::from(*limit)),
        TrustReply::Loaded { module } => add_count(text, b"loaded", u64::from(*module)),
        TrustReply::Listed { module, place } => {
            add_count(text, b"listed", u64::from(*module))?;
            add_number(text, *place)
        }
        TrustReply::Unlisted => put(text, b" unlisted"),
    }
}

/// A reply, its words each behind a space.
pub fn add_reply(alloc: Global, text: &mut Vec<u8>, reply: &Reply) -> Result<(), AllocError>
    ensures { OnOk result (text.new.items ≡
        text.old.items ++ spaced (reply_words (read_count reply.now) reply.now)) }
{
    match reply {
        Reply::File(reply) => add_file_reply(alloc, text, reply),
        Reply::Proc(reply) => add_proc_reply(alloc, text, reply),
        Reply::Trust(reply) => add_trust_reply(alloc, text, reply),
    }
}
