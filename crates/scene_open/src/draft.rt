//! The parts of a scene that were opened so far.

ghost use Rattle.std.specs.Prelude.{◌≡◌, ℕ, ◌∷◌, [], ◌<◌, ◌^◌, List, Option, length, nat_lt, IfOk, OnOk, IsTrue, IsAscii};
ghost use Rattle.pg_bytes.specs.Rules.{Tries};
ghost use Rattle.pg_bytes.specs.declared.status.Status.TheVariants.{Limit};
ghost use Rattle.pg_bytes.specs.declared.status.Which.TheVariants as which;
ghost use Rattle.pg_bytes.specs.PageSize.{is_page_size};
ghost use Rattle.pg_io.specs.Files.{Told};
ghost use Rattle.scene_text.specs.declared.head.Head.{Head};
ghost use Rattle.scene_text.specs.declared.head.Head.TheVariants as head;
ghost use Rattle.scene_open.specs.Opening.{page_size_of};
ghost use Rattle.scene_open.specs.Opening as opening;
ghost use Rattle.scene_open.specs.Drafts.{IsReadable, HasFile, HasStatic, HasCache, Adds, AddsFile, TriesModule, GivesCache, Takes, FinishesTo};
ghost use Rattle.scene_open.specs.Ends.{IsCaused};

use crate::layouts::{hold_signatures, macho_layout, raw_layout};
use crate::open_scene::OpenScene;
use crate::reading::read_file;
use cs_policy::{Layout, Refusal};
use cs_trust::{Module, StaticTrust, TrustFail, module};
use pg_bytes::{Octets, Range, Status, Which};
use pg_io::{Files, MemPager};
use pg_trusted::Trusted;
use scene_text::Head;
use std::alloc::{AllocError, Global};
use std::sync::Arc;

/// The most bytes that a file may have.
const FILE_BYTES: u64 = 67_108_864;

/// The most bytes that are read of a trust cache: one more than one of the greatest length has, with 65,536 entries of
/// version 2.
const CACHE_BYTES: u64 = 1_572_889;

/// The parts that were opened so far.
#[derive(Drop)]
pub struct Draft {
    pub pagers: Vec<MemPager>,
    pub layouts: Vec<Layout>,
    pub statics: Vec<Module>,
    pub caches: Vec<Result<Module, Refusal>>,
}

/// Holds a file to the limit on its bytes.
fn hold_bytes(bytes: &[u8]) -> Result<(), Status>
    ensures { Tries ((nat_lt 67108864 (length bytes.now), Limit which.FileBytes 67108864) ∷ []) result }
{
    if bytes.len() as u64 > FILE_BYTES {
        return Err(Status::Limit {
            which: Which::FileBytes,
            number: FILE_BYTES,
        });
    }
    Ok(())
}

/// The pager call of a file of this number that a line lets fail.
fn fail_of(head: &Head, number: u64) -> Option<u64>
    ensures { result ≡ opening.fail_of number head.now }
{
    match head {
        Head::Fail { file, call } if u64::from(*file) == number => Some(*call),
        _ => None,
    }
}

/// All of them, in the order of their lines.
fn fails_of(alloc: Global, heads: &[Head], number: u64) -> Result<Vec<u64>, AllocError>
    ensures { IfOk result (λ fails. fails.items ≡ opening.fails_of heads.now number) }
{
    heads
        .iter()
        .filter_map(|head| fail_of(head, number))
        .collect(alloc)
}

/// A static trust cache of the item of this number.
fn static_module(alloc: Global, bytes: &[u8], number: u32) -> Result<Module, Status>
    ensures { TriesModule bytes.now number result }
{
    match module(alloc, bytes) {
        Ok(found) => Ok(found),
        Err(TrustFail::Refused(refusal)) => {
            let refusal = Refusal::from(refusal);
            Err(Status::TrustBad {
                item: number,
                number: refusal.number,
                arg: refusal.a,
            })
        }
        Err(TrustFail::NoMemory) => Err(Status::NoMemory),
    }
}

/// A trust cache that a script may load, or its refusal.
fn loadable(alloc: Global, bytes: &[u8]) -> Result<Result<Module, Refusal>, AllocError>
    ensures { IfOk result (GivesCache bytes.now) }
{
    match module(alloc, bytes) {
        Ok(found) => Ok(Ok(found)),
        Err(TrustFail::Refused(refusal)) => Ok(Err(Refusal::from(refusal))),
        Err(TrustFail::NoMemory) => Err(AllocError),
    }
}

impl Draft {
    /// No parts.
    pub fn new(alloc: Global) -> Draft
        ensures pagers { result.pagers.items ≡ [] }
        ensures layouts { result.layouts.items ≡ [] }
        ensures statics { result.statics.items ≡ [] }
        ensures caches { result.caches.items ≡ [] }
    {
        Draft {
            pagers: Vec::new(alloc),
            layouts: Vec::new(alloc),
            statics: Vec::new(alloc),
            caches: Vec::new(alloc),
        }
    }

    /// The file of these bytes and this layout, whose pages have so many bytes.
    fn push_file(
        &mut self,
        alloc: Global,
        heads: &[Head],
        size: u32,
        bytes: Vec<u8>,
        layout: Layout,
    ) -> Result<(), AllocError>
        requires size { size ≡ page_size_of heads.now }
        requires known { IsTrue (is_page_size size) }
        ensures { OnOk result (HasFile heads.now self.old bytes.items layout self.new) }
    {
        let fails = fails_of(alloc, heads, self.pagers.len() as u64)?;
        self.pagers.push(MemPager::new(bytes, fails, size)?)?;
        self.layouts.push(layout)?;
        Ok(())
    }

    /// The file of these bytes and this layout, where it is within the limits.
    fn add_file(
        &mut self,
        alloc: Global,
        heads: &[Head],
        size: u32,
        bytes: Vec<u8>,
        layout: Layout,
    ) -> Result<(), Status>
        requires size { size ≡ page_size_of heads.now }
        requires known { IsTrue (is_page_size size) }
        ensures { AddsFile heads.now self.old bytes.items layout self.new result }
    {
        hold_bytes(&bytes)?;
        hold_signatures(&layout)?;
        match self.push_file(alloc, heads, size, bytes, layout) {
            Ok(()) => Ok(()),
            Err(_) => Err(Status::NoMemory),
        }
    }

    /// The item of this number is a file that is read as Mach-O.
    fn take_macho<F: Files>(
        &mut self,
        alloc: Global,
        files: &mut F,
        heads: &[Head],
        size: u32,
        number: u32,
        path: &Octets,
    ) -> Result<(), Status>
        requires path { IsAscii path.now }
        requires size { size ≡ page_size_of heads.now }
        requires known { IsTrue (is_page_size size) }
        ensures takes { Takes heads.now number (head.File path.now)
            self.old (F.tells files.old) self.new (F.tells files.new) result }
        ensures cause { IsCaused result (F.faults files.old) (F.faults files.new) }
    {
        let bytes = match read_file(alloc, files, path, FILE_BYTES + 1, number) {
            Ok(bytes) => bytes,
            Err(status) => return Err(status),
        };
        match macho_layout(alloc, &bytes) {
            Ok(layout) => self.add_file(alloc, heads, size, bytes, layout),
            Err(_) => Err(Status::NoMemory),
        }
    }

    /// The item of this number is a file that is taken as one slice, with its signature at this range.
    fn take_raw<F: Files>(
        &mut self,
        alloc: Global,
        files: &mut F,
        heads: &[Head],
        size: u32,
        number: u32,
        path: &Octets,
        sig: Range,
    ) -> Result<(), Status>
        requires path { IsAscii path.now }
        requires at { sig.at < 2 ^ 32 }
        requires len { sig.len < 2 ^ 32 }
        requires size { size ≡ page_size_of heads.now }
        requires known { IsTrue (is_page_size size) }
        ensures takes { Takes heads.now number (head.Raw path.now sig.at sig.len)
            self.old (F.tells files.old) self.new (F.tells files.new) result }
        ensures cause { IsCaused result (F.faults files.old) (F.faults files.new) }
    {
        let bytes = match read_file(alloc, files, path, FILE_BYTES + 1, number) {
            Ok(bytes) => bytes,
            Err(status) => return Err(status),
        };
        match raw_layout(alloc, &bytes, sig) {
            Ok(layout) => self.add_file(alloc, heads, size, bytes, layout),
            Err(_) => Err(Status::NoMemory),
        }
    }

    /// One more static module.
    fn push_static(&mut self, listed: Module) -> Result<(), Status>
        ensures { Adds (HasStatic self.old listed self.new) result }
    {
        match self.statics.push(listed) {
            Ok(()) => Ok(()),
            Err(_) => Err(Status::NoMemory),
        }
    }

    /// One more trust cache that a script may load.
    fn push_cache(&mut self, cache: Result<Module, Refusal>) -> Result<(), Status>
        ensures { Adds (HasCache self.old cache self.new) result }
    {
        match self.caches.push(cache) {
            Ok(()) => Ok(()),
            Err(_) => Err(Status::NoMemory),
        }
    }

    /// The item of this number is a trust cache that is a static module.
    fn take_static<F: Files>(
        &mut self,
        alloc: Global,
        files: &mut F,
        number: u32,
        path: &Octets,
    ) -> Result<(), Status>
        requires path { IsAscii path.now }
        ensures takes { (heads : List Head) → Takes heads number (head.Static path.now)
            self.old (F.tells files.old) self.new (F.tells files.new) result }
        ensures cause { IsCaused result (F.faults files.old) (F.faults files.new) }
    {
        let bytes = match read_file(alloc, files, path, CACHE_BYTES, number) {
            Ok(bytes) => bytes,
            Err(status) => return Err(status),
        };
        match static_module(alloc, &bytes, number) {
            Ok(listed) => self.push_static(listed),
            Err(refused) => Err(refused),
        }
    }

    /// The item is a static module of one entry.
    fn take_admitted(&mut self, alloc: Global, cdhash: [u8; 20]) -> Result<(), Status>
        ensures takes { (heads : List Head) (number : ℕ) (told : Option Told) →
            Takes heads number (head.Admit cdhash) self.old told self.new told result }
        ensures cause { (faults : ℕ) → IsCaused result faults faults }
    {
        match Module::one(alloc, cdhash) {
            Ok(listed) => self.push_static(listed),
            Err(_) => Err(Status::NoMemory),
        }
    }

    /// The item of this number is a trust cache that a script may load.
    fn take_cache<F: Files>(
        &mut self,
        alloc: Global,
        files: &mut F,
        number: u32,
        path: &Octets,
    ) -> Result<(), Status>
        requires path { IsAscii path.now }
        ensures takes { (heads : List Head) → Takes heads number (head.Cache path.now)
            self.old (F.tells files.old) self.new (F.tells files.new) result }
        ensures cause { IsCaused result (F.faults files.old) (F.faults files.new) }
    {
        let bytes = match read_file(alloc, files, path, CACHE_BYTES, number) {
            Ok(bytes) => bytes,
            Err(status) => return Err(status),
        };
        match loadable(alloc, &bytes) {
            Ok(cache) => self.push_cache(cache),
            Err(_) => Err(Status::NoMemory),
        }
    }

    /// The item of this number, of these header lines.
    pub fn take<F: Files>(
        &mut self,
        alloc: Global,
        files: &mut F,
        heads: &[Head],
        size: u32,
        number: u32,
        item: &Head,
    ) -> Result<(), Status>
        requires readable { IsReadable item.now }
        requires size { size ≡ page_size_of heads.now }
        requires known { IsTrue (is_page_size size) }
        ensures takes { Takes heads.now number item.now
            self.old (F.tells files.old) self.new (F.tells files.new) result }
        ensures cause { IsCaused result (F.faults files.old) (F.faults files.new) }
    {
        match item {
            Head::File { path } => self.take_macho(alloc, files, heads, size, number, path),
            Head::Raw { path, off, len } => {
                let sig = Range {
                    at: *off,
                    len: *len,
                };
                self.take_raw(alloc, files, heads, size, number, path, sig)
            }
            Head::Static { path } => self.take_static(alloc, files, number, path),
            Head::Admit { cdhash } => self.take_admitted(alloc, *cdhash),
            Head::Cache { path } => self.take_cache(alloc, files, number, path),
            Head::PageSize { .. }
            | Head::Adhoc
            | Head::Resident { .. }
            | Head::Process { .. }
            | Head::Fail { .. } => Ok(()),
        }
    }

    /// What the parts open to.
    pub fn finish(self, alloc: Global) -> Result<OpenScene, AllocError>
        requires { length self.statics.items < 2 ^ 31 }
        ensures { IfOk result (FinishesTo self) }
    {
        let fixed = Arc::new(alloc, StaticTrust::new(self.statics))?;
        Ok(OpenScene {
            files: self.pagers,
            layouts: self.layouts,
            trust: Trusted::open(alloc, fixed, self.caches)?,
        })
    }
}
