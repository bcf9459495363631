//! The report of a file's bytes.

ghost use Rattle.std.specs.Prelude.{◌≡◌, ◌+◌, ◌≤◌, All, IfOk, OnOk, length, map, sum_by};
ghost use Rattle.pg_bytes.specs.Counts.{RoseBy};
ghost use Rattle.std.specs.List.{list_all};
ghost use Rattle.macho_slices.specs.Slices.{IsWithin};
ghost use Rattle.cs_directory.specs.Directory.{IsDirectory};
ghost use Rattle.cs_verify.specs.Report.{accepted, image_report, slice_report};
ghost use Rattle.cs_verify.specs.Report as saying;
ghost use Rattle.pg_digest.specs.Digests.{sha_hash};
ghost use Rattle.cs_verify.specs.Verified.{Verifies};
ghost use Rattle.cs_verify.specs.Pages.{slotted_pages};
ghost use Rattle.cs_verify.specs.Digests.{slice_digests, image_digests, report_digests, HasDigests};

use crate::checks::{InTurn, OnThreads, PageCheck, Uncounted};
use crate::pages::pages_of;
use crate::report::{BadPages, SliceReport, VerifyFail};
use cs_blob::{Blob, BlobFail, blob};
use macho_cmds::{Image, MachFail, image};
use macho_slices::slices;
use pg_bytes::{Octets, Range, bytes_in};
use pg_digest::Digester;
use std::alloc::{AllocError, Global};
use std::thread::Threads;

/// The report of a file: for each slice, in order, the first rule that it breaks, or what it is and each hash page
/// below the limit that does not match its slot or has none. The refusal is that of a file that is no file of
/// Mach-O images. The other error is want of memory. No size of a machine's pages is given, so a report is the same on
/// each machine. The digester is called once for each hash page that has a slot, besides the calls of `cs_blob` for the
/// signature of each slice, its cdhash among them.
pub fn verify<D: Digester>(
    alloc: Global,
    bytes: &[u8],
    d: &mut D,
) -> Result<Vec<SliceReport>, VerifyFail>
    ensures verified { Verifies D.hash bytes.now result }
    ensures digests { HasDigests (report_digests D.hash bytes.now) result
        (D.calls d.old) (D.calls d.new) }
{
    report_by(alloc, bytes, &InTurn, d)
}

// The hash pages of a slice are looked at in shares of at least 128, at most one for each processor; those of a slice with
// fewer than 256 by the thread that calls.

/// The report of a file, which is that of `verify` by the standard digests. Pages may be looked at on other threads; the
/// report is the same.
pub fn verify_on<R: Threads + Sync>(
    rt: &R,
    alloc: Global,
    bytes: &[u8],
) -> Result<Vec<SliceReport>, VerifyFail>
    ensures verified { Verifies sha_hash bytes.now result }
{
    report_by(alloc, bytes, &OnThreads::new(rt), &mut Uncounted)
}

/// The report of a file, whose hash pages are looked at by `check`.
fn report_by<D: Digester, C: PageCheck<D>>(
    alloc: Global,
    bytes: &[u8],
    check: &C,
    d: &mut D,
) -> Result<Vec<SliceReport>, VerifyFail>
    requires ready { C.ready check.now }
    ensures verified { Verifies D.hash bytes.now result }
    ensures digests { HasDigests (report_digests D.hash bytes.now) result
        (D.calls d.old) (D.calls d.new) }
{
    let found = slices(alloc, bytes)?;
    Ok(slice_reports(alloc, bytes, &found, check, d)?)
}

/// What is said of several slices, in their order.
fn slice_reports<D: Digester, C: PageCheck<D>>(
    alloc: Global,
    bytes: &[u8],
    found: &[Range],
    check: &C,
    d: &mut D,
) -> Result<Vec<SliceReport>, AllocError>
    requires ready { C.ready check.now }
    requires within { All (IsWithin bytes.now) found.now }
    ensures reports { IfOk result (λ said.
        said.items ≡ map (slice_report D.hash bytes.now) found.now) }
    ensures digests { OnOk result
        (RoseBy (sum_by (slice_digests D.hash bytes.now) found.now) (D.calls d.old) (D.calls d.new)) }
{
    let mut reports = Vec::with_capacity(alloc, found.len())?;
    for slice in found {
        reports.push(slice_report(alloc, bytes, slice, check, d)?)?;
    }
    Ok(reports)
}

/// What is said of one slice.
fn slice_report<D: Digester, C: PageCheck<D>>(
    alloc: Global,
    bytes: &[u8],
    slice: &Range,
    check: &C,
    d: &mut D,
) -> Result<SliceReport, AllocError>
    requires ready { C.ready check.now }
    requires within { slice.now.at + slice.now.len ≤ length bytes.now }
    ensures report { IfOk result (λ said. said ≡ slice_report D.hash bytes.now slice.now) }
    ensures digests { OnOk result
        (RoseBy (slice_digests D.hash bytes.now slice.now) (D.calls d.old) (D.calls d.new)) }
{
    match image(alloc, bytes, slice) {
        Ok(image) => image_report(alloc, bytes_in(bytes, slice), slice, &image, check, d),
        Err(MachFail::Refused(refusal)) => Ok(SliceReport::Refused(refusal.into())),
        Err(MachFail::NoMemory) => Err(AllocError),
    }
}

/// What is said of an image.
fn image_report<D: Digester, C: PageCheck<D>>(
    alloc: Global,
    bytes: &[u8],
    slice: &Range,
    image: &Image,
    check: &C,
    d: &mut D,
) -> Result<SliceReport, AllocError>
    requires ready { C.ready check.now }
    requires inside { image.now.sig.at + image.now.sig.len ≤ length bytes.now }
    requires whole { length bytes.now ≡ slice.now.len }
    ensures report { IfOk result (λ said.
        said ≡ image_report D.hash bytes.now slice.now image.now) }
    ensures digests { OnOk result (RoseBy (image_digests D.hash bytes.now slice.now image.now)
        (D.calls d.old) (D.calls d.new)) }
{
    let signature = bytes_in(bytes, &image.sig).to_vec(alloc)?;
    match blob(alloc, signature, slice, None, d) {
        Ok(blob) => accepted(alloc, bytes, image, &blob, check, d),
        Err(BlobFail::Refused(refusal)) => Ok(SliceReport::Refused(refusal.into())),
        Err(BlobFail::NoMemory) => Err(AllocError),
    }
}

/// What is said of an image whose signature is accepted.
fn accepted<D: Digester, C: PageCheck<D>>(
    alloc: Global,
    bytes: &[u8],
    image: &Image,
    blob: &Blob,
    check: &C,
    d: &mut D,
) -> Result<SliceReport, AllocError>
    requires ready { C.ready check.now }
    requires directory { IsDirectory blob.now.best_bytes blob.now.best }
    requires limited { blob.now.best.limit ≤ length bytes.now }
    ensures report { IfOk result (λ said. said ≡ accepted D.hash bytes.now image.now blob.now) }
    ensures digests { OnOk result
        (RoseBy (slotted_pages blob.now.best) (D.calls d.old) (D.calls d.new)) }
{
    let best = blob.best();
    let bad = check.bad_pages(alloc, best, blob.best_bytes(), bytes, d)?;
    Ok(SliceReport::Accepted {
        cputype: image.cputype,
        cpusubtype: image.cpusubtype,
        filetype: image.filetype,
        cdhash: *blob.cdhash(),
        kind: best.kind(),
        flags: best.flags(),
        limit: best.limit(),
        slots: best.slots(),
        ident: Octets::new(best.ident(blob.best_bytes()).to_vec(alloc)?),
        bad: BadPages::new(bad),
        pages: pages_of(best),
    })
}

/// Whether all of a file matches: it has a slice, and each of its slices is a signed image all of whose hash pages
/// below the limit match.
pub fn all_match(reports: &[SliceReport]) -> bool
    ensures { result ≡ saying.all_match reports.now }
{
    !reports.is_empty() && each_matches(reports)
}

/// Whether each slice matches.
fn each_matches(reports: &[SliceReport]) -> bool
    ensures { result ≡ list_all saying.matches reports.now }
{
    reports.iter().all(|report| report.matches())
}
