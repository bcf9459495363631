//! The calls of the pages of a file.

ghost use Rattle.std.specs.Prelude.{◌≡◌, ◌+◌, ◌*◌, ◌/◌, ◌%◌, ◌<◌, ◌≤◌, ◌↔◌, Ok, Some, IsTrue, IsSome, IfSome, IfOk, IfErr, IsOk, OnOk, OnErr, is_some, is_err, option_map, length, replicate, slice_get};
ghost use Rattle.std.specs.Borrow.{sem};
ghost use Rattle.std.specs.Io.BufRead.{Rests};
ghost use Rattle.pg_bytes.specs.Counts.{Rose};
ghost use Rattle.pg_io.specs.PageBytes.{is_page_size};
ghost use Rattle.pg_digest.specs.Kinds.{size_of};
ghost use Rattle.pg_cache.specs.Cache.{resident_page, at_hand, contents, IsSound, KeepsSizes};
ghost use Rattle.pg_cache.specs.Gives.{PeekLeaves, PeekGives, BringGives, PutGives, WriteGives, EvictGives};
ghost use Rattle.pg_pages.specs.Marks.{seal_of, blank, marked, sealed_at, marks_of};
ghost use Rattle.pg_pages.specs.MarkSteps.{spare_gone, peeked, kept, checked, filled, brought, written, evicted, cleared};
ghost use Rattle.pg_pages.specs.Pages.{bytes_at_hand, Answers, Checked, hashed, IsMarked, IsValidated};
ghost use Rattle.pg_pages.specs.declared.row.Row.TheVariants.{Changed, MapsWritable};
ghost use Rattle.pg_pages.specs.contracts.pages.Pages.{the_row};

use crate::NoMemory;
use crate::check::Check;
use crate::marks::MarkTable;
use crate::parts::compare;
use crate::row::Row;
use pg_cache::{Cache, PagerFault};
use pg_digest::{Digester, HashKind};
use pg_io::Pager;
use std::alloc::Global;
use std::marker::Model;

/// The pages of one file, with what computes their digests and the marks of what was found.
///
/// Contracts see it as the cache, the marks of each page of the file by page number, and the number of the digester's
/// calls. A page that was found sealed by digests is validated for them until it changes, goes from the list or from
/// the spare buffer, or is mapped by a writer.
#[derive(Drop)]
pub struct Pages<P: Pager, D: Digester> {
    cache: Cache<P>,
    digester: D,
    marks: MarkTable,
}

impl<P: Pager, D: Digester> Model for Pages<P, D> {
    ghost use Rattle.pg_pages.specs.Pages.{PagesNow, IsMarked};

    ghost Value = { PagesNow };

    ghost view = { λ pages. record { cache = pages.cache; marks = pages.marks; calls = D.calls pages.digester } };

    ghost invariant = { λ pages. IsMarked D.hash pages.cache pages.marks };
}

impl<P: Pager, D: Digester + Drop> Pages<P, D> {
    /// These pages with this digester, without a mark. All memory that the marks ever use is taken here: for each page
    /// of the file there is room for the digests of its parts.
    pub fn open(alloc: Global, cache: Cache<P>, digester: D) -> Result<Pages<P, D>, NoMemory>
        ensures opened { IfOk result (λ pages. pages ≡ record { cache = cache; marks = replicate cache.pager.pages blank; calls = D.calls digester }) }
        ensures marked { IfOk result (λ pages. IsMarked D.hash pages.cache pages.marks) }
    {
        let marks = MarkTable::open(alloc, cache.pages())?;
        Ok(Pages {
            cache,
            digester,
            marks,
        })
    }
}

impl<P: Pager, D: Digester> Pages<P, D> {
    /// How many pages the file has.
    pub fn pages(&self) -> u64
        ensures pages { result ≡ self.now.cache.pager.pages }
        ensures whole { IfSome (contents self.now.cache) (λ pages. length pages ≡ result) }
        ensures sound { IsSound self.now.cache }
        ensures marked { IsMarked D.hash self.now.cache self.now.marks }
    {
        self.cache.pages()
    }

    /// How many bytes a page has: 4,096 or 16,384.
    pub fn page_size(&self) -> u32
        ensures size { result ≡ self.now.cache.pager.page_size }
        ensures known { IsTrue (is_page_size result) }
        ensures sound { IsSound self.now.cache }
    {
        self.cache.page_size()
    }

    /// How many pages may be resident.
    pub fn limit(&self) -> u32
        ensures limit { result ≡ self.now.cache.limit }
        ensures sound { IsSound self.now.cache }
    {
        self.cache.limit()
    }

    /// Whether a page is resident.
    pub fn is_resident(&self, page: u64) -> bool
        ensures resident { result ≡ is_some (resident_page self.now.cache page) }
        ensures sound { IsSound self.now.cache }
    {
        self.cache.is_resident(page)
    }

    /// The present bytes of a page that is resident or stands in the spare buffer, as `bytes` of the cache.
    pub fn bytes(&self, page: u64) -> &[u8]
        requires inside { page < self.now.cache.pager.pages }
        requires at_hand { IsSome (at_hand self.now.cache page) }
        ensures bytes { option_map (λ held. held.bytes) (at_hand self.now.cache page) ≡ Some result.now }
        ensures known { IfSome (contents self.now.cache) (λ pages. slice_get pages page ≡ Some result.now) }
        ensures whole { length result.now ≡ self.now.cache.pager.page_size }
    {
        self.cache.bytes(page)
    }

    /// Forgets what was found of the page that stands in the spare buffer, if one does.
    pub fn forget_spare(&mut self)
        ensures marks { self.new ≡ record self.old { marks = spare_gone self.old.cache self.old.marks } }
        ensures marked { IsMarked D.hash self.new.cache self.new.marks }
    {
        self.marks.apply_if(self.cache.spare(), Row::Goes);
    }

    // Makes way for a page that a peek reads.
    fn before_peek(&mut self, page: u64)
        ensures { self.new ≡ record self.old { marks = peeked self.old.cache page self.old.marks } }
    {
        if !self.cache.is_resident(page) {
            self.forget_spare();
        }
    }

    // Makes way for a page that a bring reads.
    fn before_bring(&mut self, page: u64)
        ensures { self.new ≡ record self.old { marks = filled self.old.cache page self.old.marks } }
    {
        if !self.cache.is_resident(page) && self.cache.spare() != Some(page) {
            self.forget_spare();
        }
    }

    // Brings a page where its bytes can be seen.
    fn ready(&mut self, page: u64) -> Result<(), PagerFault>
        requires { page < self.old.cache.pager.pages }
        ensures leaves { PeekLeaves self.old.cache page (is_err result) self.new.cache }
        ensures fault { IfErr result (λ fault. fault.page ≡ page) }
        ensures ready { OnOk result (IsSome (at_hand self.new.cache page)) }
        ensures sizes { KeepsSizes self.old.cache self.new.cache }
        ensures content { contents self.new.cache ≡ contents self.old.cache }
        ensures marks { self.new.marks ≡ peeked self.old.cache page self.old.marks }
        ensures marked { IsMarked D.hash self.new.cache self.new.marks }
        ensures calls { self.new.calls ≡ self.old.calls }
    {
        self.before_peek(page);
        self.cache.peek(page)?;
        Ok(())
    }

    /// The present bytes of a page, as `peek` of the cache.
    pub fn peek(&mut self, page: u64) -> Result<&[u8], PagerFault>
        requires { page < self.old.cache.pager.pages }
        ensures* after_borrow { sem 𝓛 (Rests (the_row P.row D.row P.Pager D.Digester) self.entry (λ new.
            PeekGives self.old.cache page result new.cache × (new.marks ≡ peeked self.old.cache page self.old.marks)
            × (new.calls ≡ self.old.calls) × IsMarked D.hash new.cache new.marks)) }
        ensures bytes { IfOk result (λ bytes. IfSome (resident_page self.old.cache page) (λ held. bytes.now ≡ held.bytes)) }
        ensures known { IfOk result (λ bytes. IfSome (contents self.old.cache) (λ pages. slice_get pages page ≡ Some bytes.now)) }
        ensures whole { IfOk result (λ bytes. length bytes.now ≡ self.old.cache.pager.page_size) }
        ensures resident { IsSome (resident_page self.old.cache page) → IsOk result }
        ensures fault { IfErr result (λ fault. fault.page ≡ page) }
    {
        self.ready(page)?;
        Ok(self.cache.bytes(page))
    }

    /// Makes a page resident and the most recent, as `bring` of the cache.
    pub fn bring(&mut self, page: u64) -> Result<Option<u64>, PagerFault>
        requires { page < self.old.cache.pager.pages }
        ensures gives { BringGives self.old.cache page result self.new.cache }
        ensures marks { self.new.marks ≡ brought self.old.cache page result self.old.marks }
        ensures marked { IsMarked D.hash self.new.cache self.new.marks }
        ensures calls { self.new.calls ≡ self.old.calls }
    {
        self.before_bring(page);
        let resident = self.cache.is_resident(page);
        let left = self.cache.bring(page)?;
        if resident {
            return Ok(left);
        }
        self.marks.apply(page, Row::Enters);
        self.marks.apply_if(left, Row::Goes);
        Ok(left)
    }

    /// Writes bytes over a part of a resident page, as `put` of the cache.
    pub fn put(&mut self, page: u64, at: u32, bytes: &[u8])
        requires resident { IsSome (resident_page self.old.cache page) }
        requires fits { at + length bytes.now ≤ self.old.cache.pager.page_size }
        ensures gives { PutGives self.old.cache page at bytes.now self.new.cache }
        ensures marks { self.new.marks ≡ marked Changed page self.old.marks }
        ensures marked { IsMarked D.hash self.new.cache self.new.marks }
        ensures calls { self.new.calls ≡ self.old.calls }
    {
        self.marks.apply(page, Row::Changed);
        self.cache.put(page, at, bytes);
    }

    /// Writes bytes over a part of a page, through to the pager, as `write` of the cache.
    pub fn write(&mut self, page: u64, at: u32, bytes: &[u8]) -> Result<(), PagerFault>
        requires inside { page < self.old.cache.pager.pages }
        requires fits { at + length bytes.now ≤ self.old.cache.pager.page_size }
        ensures gives { WriteGives self.old.cache page at bytes.now result self.new.cache }
        ensures marks { self.new.marks ≡ written self.old.cache page result self.old.marks }
        ensures marked { IsMarked D.hash self.new.cache self.new.marks }
        ensures calls { self.new.calls ≡ self.old.calls }
    {
        self.forget_spare();
        self.cache.write(page, at, bytes)?;
        self.marks.apply(page, Row::Changed);
        Ok(())
    }

    /// Takes a page out of the list, as `evict` of the cache.
    pub fn evict(&mut self, page: u64) -> Result<bool, PagerFault>
        ensures gives { EvictGives self.old.cache page result self.new.cache }
        ensures marks { self.new.marks ≡ evicted page result self.old.marks }
        ensures marked { IsMarked D.hash self.new.cache self.new.marks }
        ensures calls { self.new.calls ≡ self.old.calls }
    {
        if !self.cache.evict(page)? {
            return Ok(false);
        }
        self.marks.apply(page, Row::Goes);
        Ok(true)
    }

    /// Whether a page is validated: it was found sealed and has not changed since, and no writer maps it.
    pub fn is_validated(&self, page: u64) -> bool
        ensures validated { result ≡ is_some (marks_of self.now.marks page).validated }
        ensures marked { IsMarked D.hash self.now.cache self.now.marks }
    {
        self.marks.is_sealed(page)
    }

    // Whether a page is resident and validated for these digests.
    fn is_sealed(&self, page: u64, kind: HashKind, part: u32, wanted: &[u8]) -> bool
        ensures answer { IsTrue result ↔ (IsSome (resident_page self.now.cache page) × IsValidated self.now page (seal_of kind part wanted.now)) }
        ensures sound { IsSound self.now.cache }
        ensures marked { IsMarked D.hash self.now.cache self.now.marks }
    {
        self.cache.is_resident(page) && self.marks.is_validated(page, kind, part, wanted)
    }

    // The same check by hashing, without a look at the marks of the page.
    fn hash_parts(
        &mut self,
        page: u64,
        kind: HashKind,
        part: u32,
        wanted: &[u8],
    ) -> Result<Check, PagerFault>
        requires inside { page < self.old.cache.pager.pages }
        requires part { IsTrue (is_page_size part) }
        requires divides { self.old.cache.pager.page_size % part ≡ 0 }
        requires digests { length wanted.now ≡ self.old.cache.pager.page_size / part * size_of kind }
        ensures leaves { PeekLeaves self.old.cache page (is_err result) self.new.cache }
        ensures known { IfOk result (λ check. IfSome (contents self.old.cache) (λ pages. IfSome (slice_get pages page) (λ bytes.
            Answers D.hash (seal_of kind part wanted.now) bytes check))) }
        ensures checked { IfOk result (Checked D.hash (seal_of kind part wanted.now) (bytes_at_hand self.new.cache page)) }
        ensures fault { IfErr result (λ fault. fault.page ≡ page) }
        ensures counted { OnOk result (Rose self.old.calls self.new.calls) }
        ensures once { IfOk result (λ check. self.new.calls ≤ self.old.calls + hashed (self.old.cache.pager.page_size / part) check) }
        ensures uncalled { OnErr result (self.new.calls ≡ self.old.calls) }
        ensures marks { self.new.marks ≡ peeked self.old.cache page self.old.marks }
        ensures marked { IsMarked D.hash self.new.cache self.new.marks }
    {
        self.ready(page)?;
        let bytes = self.cache.bytes(page);
        Ok(compare(&mut self.digester, bytes, kind, part, wanted))
    }

    // Keeps what a check found.
    fn keep(&mut self, page: u64, check: &Check, kind: HashKind, part: u32, wanted: &[u8])
        requires inside { page < self.old.cache.pager.pages }
        requires few { length wanted.now ≤ 192 }
        requires found { Checked D.hash (seal_of kind part wanted.now) (bytes_at_hand self.old.cache page) check.now }
        ensures marks { self.new ≡ record self.old { marks = kept (seal_of kind part wanted.now) page check.now self.old.marks } }
        ensures marked { IsMarked D.hash self.new.cache self.new.marks }
    {
        match check {
            Check::Sealed => self.marks.seal(page, kind, part, wanted),
            Check::NotSealed { .. } => self.marks.apply(page, Row::FoundOther),
        }
    }

    /// Whether each part of the present bytes of a page has its digest under `kind`. A part has `part` bytes, 4,096 or
    /// 16,384, which divide the page's size, and `wanted` holds the digests of the parts one after another.
    ///
    /// The page is looked at as by `peek`: there is no pager call for a resident page and one read of another, and a
    /// `bring` of the same page that follows makes no second read. A resident page that is validated for these very
    /// digests is sealed, and the digester is not called. Else it is called once for each part, up to the first that
    /// has another digest than its own. A page that was found sealed is validated from then on, unless a writer maps
    /// it.
    pub fn check(
        &mut self,
        page: u64,
        kind: HashKind,
        part: u32,
        wanted: &[u8],
    ) -> Result<Check, PagerFault>
        requires inside { page < self.old.cache.pager.pages }
        requires part { IsTrue (is_page_size part) }
        requires divides { self.old.cache.pager.page_size % part ≡ 0 }
        requires digests { length wanted.now ≡ self.old.cache.pager.page_size / part * size_of kind }
        ensures leaves { PeekLeaves self.old.cache page (is_err result) self.new.cache }
        ensures known { IfOk result (λ check. IfSome (contents self.old.cache) (λ pages. IfSome (slice_get pages page) (λ bytes.
            Answers D.hash (seal_of kind part wanted.now) bytes check))) }
        ensures checked { IfOk result (Checked D.hash (seal_of kind part wanted.now) (bytes_at_hand self.new.cache page)) }
        ensures fault { IfErr result (λ fault. fault.page ≡ page) }
        ensures lazy { IsSome (resident_page self.old.cache page) → IsValidated self.old page (seal_of kind part wanted.now)
            → (result ≡ Ok Check.Sealed) × (self.new.calls ≡ self.old.calls) }
        ensures once { IfOk result (λ check. self.new.calls ≤ self.old.calls + hashed (self.old.cache.pager.page_size / part) check) }
        ensures uncalled { OnErr result (self.new.calls ≡ self.old.calls) }
        ensures marks { self.new.marks ≡ checked self.old.cache page (seal_of kind part wanted.now) result self.old.marks }
        ensures marked { IsMarked D.hash self.new.cache self.new.marks }
    {
        if self.is_sealed(page, kind, part, wanted) {
            return Ok(Check::Sealed);
        }
        let check = self.hash_parts(page, kind, part, wanted)?;
        self.keep(page, &check, kind, part, wanted);
        Ok(check)
    }

    /// Says that a writer maps a resident page. The page is validated no more, and a check does not validate it while
    /// this stands.
    pub fn set_writable(&mut self, page: u64)
        requires { IsSome (resident_page self.old.cache page) }
        ensures marks { self.new ≡ record self.old { marks = marked MapsWritable page self.old.marks } }
        ensures marked { IsMarked D.hash self.new.cache self.new.marks }
    {
        self.marks.apply(page, Row::MapsWritable);
    }

    /// Says that no writer maps a page any more. Of a page that is not resident that is known.
    pub fn clear_writable(&mut self, page: u64)
        ensures marks { self.new ≡ record self.old { marks = cleared self.old.cache page self.old.marks } }
        ensures marked { IsMarked D.hash self.new.cache self.new.marks }
    {
        if !self.cache.is_resident(page) {
            return;
        }
        self.marks.apply(page, Row::ClearsWritable);
    }
}
