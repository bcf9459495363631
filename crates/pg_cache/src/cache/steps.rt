//! The steps of a cache's calls over its store: the pager calls, and what each moves.

ghost use Rattle.std.specs.Prelude.{◌≡◌, ◌+◌, ◌<◌, ◌≤◌, Some, None, IsSome, IfSome, IfErr, OnOk, option_map, is_some, is_err, length};
ghost use Rattle.pg_io.specs.PageBytes.{written_over};
ghost use Rattle.pg_io.specs.Pager.{IsWrite};
ghost use Rattle.pg_cache.specs.Held.{changed, fronted, dirtied};
ghost use Rattle.pg_cache.specs.Cache.{resident_page, contents, victim, in_spare, at_hand, IsSound, KeepsSizes};
ghost use Rattle.pg_cache.specs.Gives.{PeekLeaves};
ghost use Rattle.pg_cache.specs.Steps.{entered, ReadsSpare, Saves, SavesVictim, WritesThrough, Peeks, Fills, Brings, Writes, Evicts};

use super::Cache;
use crate::fault::PagerFault;
use pg_io::{Failed, PageBuffer, Pager};

impl<P: Pager> Cache<P> {
    // ---- a page comes

    // Reads a page that is not resident into the spare buffer.
    fn read_spare(&mut self, page: u64) -> Result<(), PagerFault>
        requires inside { page < self.old.pager.pages }
        requires absent { resident_page self.old page ≡ None }
        ensures reads { ReadsSpare self.old page (is_err result) self.new }
        ensures fault { IfErr result (λ fault. fault.page ≡ page) }
        ensures stands { OnOk result (IsSome (in_spare self.new page)) }
    {
        self.has_spare = false;
        if self.store.read_spare(&mut self.pager, page).is_err() {
            return Err(PagerFault { page });
        }
        self.has_spare = true;
        Ok(())
    }

    // Brings a page where its bytes can be seen: to the spare buffer if it is not resident.
    fn look_up(&mut self, page: u64) -> Result<(), PagerFault>
        requires { page < self.old.pager.pages }
        ensures steps { Peeks self.old page (is_err result) self.new }
        ensures fault { IfErr result (λ fault. fault.page ≡ page) }
        ensures ready { OnOk result (IsSome (at_hand self.new page)) }
        ensures sound { IsSound self.old }
    {
        if self.is_resident(page) {
            return Ok(());
        }
        self.read_spare(page)
    }

    // The same, and what it leaves.
    pub(super) fn ready(&mut self, page: u64) -> Result<(), PagerFault>
        requires { page < self.old.pager.pages }
        ensures leaves { PeekLeaves self.old page (is_err result) self.new }
        ensures ready { OnOk result (IsSome (at_hand self.new page)) }
        ensures content { contents self.new ≡ contents self.old }
        ensures sizes { KeepsSizes self.old self.new }
        ensures fault { IfErr result (λ fault. fault.page ≡ page) }
    {
        self.look_up(page)
    }

    // Where the bytes of a page stand that is resident or in the spare buffer.
    pub(super) fn seat(&self, page: u64) -> &[u8]
        requires { IsSome (at_hand self.now page) }
        ensures bytes { option_map (λ held. held.bytes) (at_hand self.now page) ≡ Some result.now }
        ensures sound { IsSound self.now }
    {
        self.store.seat(page)
    }

    // Moves a resident page to the front of the list, and says whether it is resident.
    fn to_front(&mut self, page: u64) -> bool
        ensures resident { result ≡ is_some (resident_page self.old page) }
        ensures fronts { self.new ≡ record self.old { held = fronted self.old.held page } }
        ensures sound { IsSound self.old }
    {
        self.store.to_front(page)
    }

    // Whether the page stands in the spare buffer.
    fn is_in_spare(&self, page: u64) -> bool
        ensures { result ≡ is_some (in_spare self.now page) }
    {
        self.has_spare && self.store.spare_page() == page
    }

    // Brings a page that is not resident to the spare buffer.
    fn fill(&mut self, page: u64) -> Result<(), PagerFault>
        requires inside { page < self.old.pager.pages }
        requires absent { resident_page self.old page ≡ None }
        ensures fills { Fills self.old page (is_err result) self.new }
        ensures fault { IfErr result (λ fault. fault.page ≡ page) }
        ensures stands { OnOk result (IsSome (in_spare self.new page)) }
        ensures victim { victim self.new ≡ victim self.old }
    {
        if self.is_in_spare(page) {
            return Ok(());
        }
        self.read_spare(page)
    }

    // Makes a page resident and the most recent.
    pub(super) fn bring_in(&mut self, page: u64) -> Result<Option<u64>, PagerFault>
        requires { page < self.old.pager.pages }
        ensures steps { Brings self.old page result self.new }
        ensures sound { IsSound self.old }
    {
        if self.to_front(page) {
            return Ok(None);
        }
        self.fill(page)?;
        self.save_victim()?;
        Ok(self.enter())
    }

    // ---- a page goes

    // Writes a resident page to the pager, if it is dirty. It stays in the list as it is.
    fn save(&mut self, page: u64) -> Result<(), PagerFault>
        requires { IsSome (resident_page self.old page) }
        ensures saves { IfSome (resident_page self.old page) (λ held. Saves self.old held (is_err result) self.new) }
        ensures fault { IfErr result (λ fault. fault.page ≡ page) }
        ensures spare { self.new.spare ≡ self.old.spare }
    {
        let Some(bytes) = self.store.dirty_bytes(page) else {
            return Ok(());
        };
        if self.pager.write_page(page, bytes).is_err() {
            return Err(PagerFault { page });
        }
        Ok(())
    }

    // Saves the page that has to leave for another, if there is one.
    fn save_victim(&mut self) -> Result<(), PagerFault>
        ensures saves { SavesVictim self.old (is_err result) self.new }
        ensures fault { IfErr result (λ fault. IfSome (victim self.old) (λ held. fault.page ≡ held.page)) }
        ensures spare { self.new.spare ≡ self.old.spare }
        ensures victim { victim self.new ≡ victim self.old }
    {
        match self.store.victim() {
            Some(page) => self.save(page),
            None => Ok(()),
        }
    }

    // Puts the page in the spare buffer at the front of the list, in the victim's place.
    fn enter(&mut self) -> Option<u64>
        requires { IsSome self.old.spare }
        ensures enters { self.new ≡ entered self.old }
        ensures leaver { result ≡ option_map (λ held. held.page) (victim self.old) }
    {
        self.has_spare = false;
        self.store.enter()
    }

    // Takes a page out of the list.
    pub(super) fn put_out(&mut self, page: u64) -> Result<bool, PagerFault>
        ensures steps { Evicts self.old page result self.new }
        ensures fault { IfErr result (λ fault. fault.page ≡ page) }
        ensures sound { IsSound self.old }
    {
        if !self.is_resident(page) {
            return Ok(false);
        }
        self.save(page)?;
        self.store.remove(page);
        Ok(true)
    }

    // ---- a page changes

    // Writes bytes over a part of a resident page.
    pub(super) fn put_in(&mut self, page: u64, at: u32, bytes: &[u8])
        requires resident { IsSome (resident_page self.old page) }
        requires fits { at + length bytes.now ≤ self.old.pager.page_size }
        ensures after { self.new ≡ record self.old { held = changed (dirtied at bytes.now) self.old.held page } }
        ensures sound { IsSound self.old }
    {
        self.store.put(page, at, bytes, true);
    }

    // Writes bytes over a part of a page that is resident or in the spare buffer.
    fn write_part(&mut self, page: u64, at: u32, bytes: &[u8]) -> Result<(), PagerFault>
        requires inside { page < self.old.pager.pages }
        requires at_hand { IsSome (at_hand self.old page) }
        requires fits { at + length bytes.now ≤ self.old.pager.page_size }
        ensures writes { IfSome (at_hand self.old page) (λ held. WritesThrough self.old page (written_over held.bytes at bytes.now) (is_err result) self.new) }
        ensures fault { IfErr result (λ fault. fault.page ≡ page) }
    {
        self.has_spare = false;
        let whole = self.store.seat(page);
        if send(&mut self.pager, &mut self.buffer, page, whole, at, bytes).is_err() {
            return Err(PagerFault { page });
        }
        self.store.put(page, at, bytes, false);
        Ok(())
    }

    // Writes a whole page that is not resident.
    fn write_whole(&mut self, page: u64, bytes: &[u8]) -> Result<(), PagerFault>
        requires inside { page < self.old.pager.pages }
        requires absent { resident_page self.old page ≡ None }
        requires whole { length bytes.now ≡ self.old.pager.page_size }
        ensures writes { WritesThrough self.old page bytes.now (is_err result) self.new }
        ensures fault { IfErr result (λ fault. fault.page ≡ page) }
    {
        self.has_spare = false;
        if self.pager.write_page(page, bytes).is_err() {
            return Err(PagerFault { page });
        }
        Ok(())
    }

    // Writes bytes over a part of a page, through to the pager.
    pub(super) fn write_through(
        &mut self,
        page: u64,
        at: u32,
        bytes: &[u8],
    ) -> Result<(), PagerFault>
        requires inside { page < self.old.pager.pages }
        requires fits { at + length bytes.now ≤ self.old.pager.page_size }
        ensures steps { Writes self.old page at bytes.now (is_err result) self.new }
        ensures fault { IfErr result (λ fault. fault.page ≡ page) }
        ensures sound { IsSound self.old }
    {
        if self.is_resident(page) {
            return self.write_part(page, at, bytes);
        }
        if bytes.len() == self.page_size() as usize {
            return self.write_whole(page, bytes);
        }
        self.read_spare(page)?;
        self.write_part(page, at, bytes)
    }
}

// Writes a page whole to the pager, with bytes over a part of it. The page is made in the buffer.
fn send<P: Pager>(
    pager: &mut P,
    buffer: &mut PageBuffer,
    page: u64,
    whole: &[u8],
    at: u32,
    bytes: &[u8],
) -> Result<(), Failed>
    requires inside { page < (P.shows pager.old).pages }
    requires size { length buffer.old ≡ (P.shows pager.old).page_size }
    requires whole { length whole.now ≡ length buffer.old }
    requires fits { at + length bytes.now ≤ length buffer.old }
    ensures write { IsWrite (P.shows pager.old) page (is_err result) (written_over whole.now at bytes.now) (P.shows pager.new) }
    ensures buffer { length buffer.new ≡ length buffer.old }
{
    buffer.fill(whole);
    buffer.put(at, bytes);
    pager.write_page(page, buffer.bytes())
}
