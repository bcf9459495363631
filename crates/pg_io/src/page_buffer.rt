ghost use Rattle.std.specs.Prelude.{◌≡◌, ◌+◌, ◌<◌, ◌≤◌, IfOk, is_err, length, replicate};
ghost use Rattle.pg_io.specs.Pager.{IsRead};
ghost use Rattle.pg_io.specs.PageBytes.{written_over};

use crate::NoMemory;
use crate::pager::Pager;
use crate::sink::Failed;
use std::alloc::Global;
use std::marker::Model;

/// A buffer of one page, seen as the list of its bytes. Its memory is taken when it is made, and its length stays.
#[derive(Drop)]
pub struct PageBuffer {
    bytes: Vec<u8>,
}

impl Model for PageBuffer {
    ghost use Rattle.std.specs.Prelude.{ℕ, List};

    ghost Value = { List ℕ };

    ghost view = { λ buffer. buffer.bytes.items };
}

impl PageBuffer {
    /// A page of zeros, of so many bytes.
    pub fn zeros(alloc: Global, page_size: u32) -> Result<PageBuffer, NoMemory>
        ensures zeros { IfOk result (λ buffer. buffer ≡ replicate page_size 0) }
        ensures whole { IfOk result (λ buffer. length buffer ≡ page_size) }
    {
        let bytes = vec![in alloc; 0; page_size as usize]?;
        Ok(PageBuffer { bytes })
    }

    /// The bytes of the page.
    pub fn bytes(&self) -> &[u8]
        ensures { result.now ≡ self.now }
    {
        &self.bytes
    }

    /// Makes these the bytes of the page: as many as it has.
    pub fn fill(&mut self, bytes: &[u8])
        requires { length bytes.now ≡ length self.old }
        ensures { self.new ≡ bytes.now }
    {
        self.bytes.as_mut_slice().copy_from_slice(bytes);
    }

    /// Writes bytes over a part of the page, from the byte `at` on. They stay in the page.
    pub fn put(&mut self, at: u32, bytes: &[u8])
        requires { at + length bytes.now ≤ length self.old }
        ensures after { self.new ≡ written_over self.old at bytes.now }
        ensures whole { length self.new ≡ length self.old }
    {
        put_bytes(&mut self.bytes, at as usize, bytes);
    }

    /// Reads a page of the pager's size into the buffer. After an `Err` any bytes may stand there.
    pub fn read<P: Pager>(&mut self, pager: &mut P, page: u64) -> Result<(), Failed>
        requires inside { page < (P.shows pager.old).pages }
        requires whole { length self.old ≡ (P.shows pager.old).page_size }
        ensures read { IsRead (P.shows pager.old) page (is_err result) self.new (P.shows pager.new) }
        ensures whole { length self.new ≡ length self.old }
    {
        pager.read_page(page, &mut self.bytes)
    }
}

/// Writes bytes over others, from the place `at` on. They stay within those.
pub fn put_bytes(bytes: &mut [u8], at: usize, from: &[u8])
    requires { at + length from.now ≤ length bytes.old }
    ensures after { bytes.new ≡ written_over bytes.old at from.now }
    ensures count { length bytes.new ≡ length bytes.old }
{
    bytes[at..at + from.len()].copy_from_slice(from);
}
