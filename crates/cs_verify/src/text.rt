//! The text of a report.

ghost use Rattle.std.specs.Prelude.{◌≡◌, ◌++◌, ◌≤◌, OnOk, IfOk, length};
ghost use Rattle.std.specs.String.{string_bytes};
ghost use Rattle.std.specs.List.{flat_map};
ghost use Rattle.hex.specs.Hex.{encode_lower};
ghost use Rattle.cs_verify.specs.Text.{word_text, arch_line, ident_text, directory_text, extent_text, accepted_text, mismatch_text, digests_text, page_line, pages_line, slice_lines, refused_line};
ghost use Rattle.cs_verify.specs.Text as texts;

use crate::report::{BadPage, SliceReport};
use cs_policy::Refusal;
use pg_digest::{Digest, HashKind, digest_bytes, number};
use std::alloc::{AllocError, Global};

/// The text of a report, one slice after another. Slice `I`, counted from 0, has the one line
/// `slice I refused R`, or a line on the image, one on its signature, one for each page that does not match, and
/// one that counts the pages that do. A file without slices has no text. The only error is want of memory.
pub fn verify_text(alloc: Global, reports: &[SliceReport]) -> Result<Vec<u8>, AllocError>
    ensures { IfOk result (λ text. text.items ≡ texts.verify_text reports.now) }
{
    let mut text = String::new(alloc);
    for (i, report) in reports.iter().enumerate() {
        put_slice(alloc, &mut text, i, report)?;
    }
    Ok(text.into_bytes())
}

/// The bytes in hex, two digits a byte.
fn hex_digits(alloc: Global, bytes: &[u8]) -> Result<String, AllocError>
    ensures { IfOk result (λ digits. string_bytes digits ≡ encode_lower bytes.now) }
{
    hex::encode(alloc, bytes)
}

/// A number in eight hex digits.
fn word_digits(alloc: Global, number: u32) -> Result<String, AllocError>
    ensures { IfOk result (λ digits. string_bytes digits ≡ word_text number) }
{
    hex_digits(alloc, &number.to_be_bytes())
}

/// The lines of slice `i`.
fn put_slice(
    alloc: Global,
    text: &mut String,
    i: usize,
    report: &SliceReport,
) -> Result<(), AllocError>
    ensures { OnOk result (string_bytes text.new ≡
        string_bytes text.old ++ slice_lines i report.now) }
{
    match report {
        SliceReport::Refused(refusal) => put_refused(text, i, *refusal),
        SliceReport::Accepted {
            cputype,
            cpusubtype,
            filetype,
            cdhash,
            kind,
            flags,
            limit,
            slots,
            ident,
            bad,
            pages,
        } => {
            put_arch(alloc, text, i, *cputype, *cpusubtype, *filetype)?;
            put_accepted(text, i)?;
            put_directory(alloc, text, cdhash, *kind, *flags)?;
            put_extent(alloc, text, *limit, *slots, ident.bytes())?;
            put_bad(alloc, text, i, bad.items())?;
            put_pages(text, i, bad.items(), *pages)
        }
    }
}

/// Why slice `i` is refused.
fn put_refused(text: &mut String, i: usize, refusal: Refusal) -> Result<(), AllocError>
    ensures { OnOk result (string_bytes text.new ≡
        string_bytes text.old ++ refused_line i refusal) }
{
    write!(text, "slice {i} refused {refusal}\n")
}

/// What the image of slice `i` is.
fn put_arch(
    alloc: Global,
    text: &mut String,
    i: usize,
    cputype: u32,
    cpusubtype: u32,
    filetype: u32,
) -> Result<(), AllocError>
    ensures { OnOk result (string_bytes text.new ≡
        string_bytes text.old ++ arch_line i cputype cpusubtype filetype) }
{
    let cputype = word_digits(alloc, cputype)?;
    let cpusubtype = word_digits(alloc, cpusubtype)?;
    write!(
        text,
        "slice {i} arch {cputype} {cpusubtype} type {filetype}\n"
    )
}

/// An identifier in hex, or a dash where it is empty.
fn ident_digits(alloc: Global, ident: &[u8]) -> Result<String, AllocError>
    ensures { IfOk result (λ digits. string_bytes digits ≡ ident_text ident.now) }
{
    if ident.is_empty() {
        return String::from_str(alloc, "-");
    }
    hex_digits(alloc, ident)
}

/// What the line on the code directory of slice `i` begins with.
fn put_accepted(text: &mut String, i: usize) -> Result<(), AllocError>
    ensures { OnOk result (string_bytes text.new ≡ string_bytes text.old ++ accepted_text i) }
{
    write!(text, "slice {i} accepted")
}

/// By what the code directory is known, and what it says of the program.
fn put_directory(
    alloc: Global,
    text: &mut String,
    cdhash: &[u8; 20],
    kind: HashKind,
    flags: u32,
) -> Result<(), AllocError>
    ensures { OnOk result (string_bytes text.new ≡
        string_bytes text.old ++ directory_text cdhash.now kind flags) }
{
    let cdhash = hex_digits(alloc, cdhash.as_slice())?;
    let kind = number(kind);
    let flags = word_digits(alloc, flags)?;
    write!(text, " cdhash {cdhash} kind {kind} flags {flags}")
}

/// How much it signs, and its identifier.
fn put_extent(
    alloc: Global,
    text: &mut String,
    limit: u64,
    slots: u64,
    ident: &[u8],
) -> Result<(), AllocError>
    ensures { OnOk result (string_bytes text.new ≡
        string_bytes text.old ++ extent_text limit slots ident.now) }
{
    let ident = ident_digits(alloc, ident)?;
    write!(text, " limit {limit} slots {slots} ident {ident}\n")
}

/// The pages of slice `i` that do not match.
fn put_bad(alloc: Global, text: &mut String, i: usize, bad: &[BadPage]) -> Result<(), AllocError>
    ensures { OnOk result (string_bytes text.new ≡
        string_bytes text.old ++ flat_map (page_line i) bad.now) }
{
    for page in bad {
        put_page(alloc, text, i, page)?;
    }
    Ok(())
}

/// Page `bad.page` of slice `i`, which does not match or has no slot.
fn put_page(alloc: Global, text: &mut String, i: usize, bad: &BadPage) -> Result<(), AllocError>
    ensures { OnOk result (string_bytes text.new ≡ string_bytes text.old ++ page_line i bad.now) }
{
    let page = bad.page;
    write!(text, "slice {i} page {page}")?;
    put_digests(alloc, text, &bad.found, &bad.wanted)
}

/// What was found and what its slot has.
fn put_digests(
    alloc: Global,
    text: &mut String,
    found: &Option<Digest>,
    wanted: &Option<Digest>,
) -> Result<(), AllocError>
    ensures { OnOk result (string_bytes text.new ≡
        string_bytes text.old ++ digests_text found.now wanted.now) }
{
    match (found, wanted) {
        (Some(found), Some(wanted)) => {
            text.push_str(" mismatch ")?;
            put_mismatch(alloc, text, digest_bytes(found), digest_bytes(wanted))
        }
        _ => text.push_str(" noslot\n"),
    }
}

/// Two digests that differ.
fn put_mismatch(
    alloc: Global,
    text: &mut String,
    found: &[u8],
    wanted: &[u8],
) -> Result<(), AllocError>
    ensures { OnOk result (string_bytes text.new ≡
        string_bytes text.old ++ mismatch_text found.now wanted.now) }
{
    let found = hex_digits(alloc, found)?;
    let wanted = hex_digits(alloc, wanted)?;
    write!(text, "found {found} wanted {wanted}\n")
}

/// How many pages of slice `i` match.
fn put_pages(text: &mut String, i: usize, bad: &[BadPage], pages: u64) -> Result<(), AllocError>
    ensures { OnOk result (string_bytes text.new ≡
        string_bytes text.old ++ pages_line i bad.now pages) }
{
    let good = pages.saturating_sub(bad.len() as u64);
    write!(text, "slice {i} pages {good} of {pages}\n")
}
