//! The numbers of a code directory, and what they tell of its bytes.

ghost use Rattle.std.specs.Prelude.{◌≡◌, ◌+◌, ◌*◌, ◌^◌, ◌<◌, ◌≤◌, ◌⊎◌, length, take, drop, bit_and, IfNone, IfSome, OnSome};
ghost use Rattle.pg_bytes.specs.Counts.{Rose};
ghost use Rattle.pg_digest.specs.Kinds.{size_of};
ghost use Rattle.cs_directory.specs.Rules.{IsFramed};
ghost use Rattle.cs_directory.specs.Layout as layout;
ghost use Rattle.cs_directory.specs.HashPages.{bits_of, bytes_of};
ghost use Rattle.cs_directory.specs.Directory.{directory_in, IsDirectory, flag_mask, slot_at, special_at, ident_at, cdhash};

use crate::hash_page::HashPage;
use crate::texts::{before_zero, behind, front};
use pg_bytes::{Range, be32_at, be64_at, bytes_in};
use pg_digest::{Digester, HashKind, digest_bytes, size};
use std::marker::Model;

/// The flags that the directory of a Mach-O file can carry: ADHOC, HARD, KILL, CHECK_EXPIRATION, RESTRICT,
/// ENFORCEMENT, REQUIRE_LV, RUNTIME and LINKER_SIGNED of `cs_blobs.h`.
pub const FLAG_MASK: u32 = 0x0003_3f02;

/// A code directory without its bytes, seen as a record of its numbers. Its methods that take bytes are
/// to be given those that `directory` accepted, or others that hold the same directory.
#[derive(Clone, Copy, Debug, PartialEq, Eq)]
pub struct Directory {
    pub(crate) length: u32,
    pub(crate) version: u32,
    pub(crate) hash_offset: u32,
    pub(crate) ident_offset: u32,
    pub(crate) special_slots: u32,
    pub(crate) code_slots: u32,
    pub(crate) kind: HashKind,
    page: HashPage,
    flags: u32,
    limit: u64,
}

impl Model for Directory {
    ghost use Rattle.cs_directory.specs.Fields.{Fields};

    ghost Value = { Fields };

    ghost view = { λ a. record {
      length = a.length;
      version = a.version;
      flags = a.flags;
      hash_offset = a.hash_offset;
      ident_offset = a.ident_offset;
      special_slots = a.special_slots;
      code_slots = a.code_slots;
      limit = a.limit;
      kind = a.kind;
      page = a.page;
    } };

    ghost inverse = { λ d. record {
      length = d.length;
      version = d.version;
      flags = d.flags;
      hash_offset = d.hash_offset;
      ident_offset = d.ident_offset;
      special_slots = d.special_slots;
      code_slots = d.code_slots;
      limit = d.limit;
      kind = d.kind;
      page = d.page;
    } };
}

/// How many bytes of the file are signed.
#[tactic(auto, unfolding(crate::specs::Layout::limit, crate::specs::Layout::header_length))]
fn limit_of(bytes: &[u8], version: u32) -> u64
    requires framed { IsFramed bytes.now }
    requires version { version ≡ layout.version bytes.now }
    ensures { result ≡ layout.limit bytes.now }
{
    if version >= 0x20300 {
        let long = be64_at(bytes, 56);
        if long != 0 {
            return long;
        }
    }
    u64::from(be32_at(bytes, 32))
}

impl Directory {
    /// The numbers at the front of the bytes, where a header lies whose hash type and size of a hash page are these.
    pub(crate) fn of(bytes: &[u8], kind: HashKind, page: HashPage) -> Directory
        requires framed { IsFramed bytes.now }
        requires kind { kind ≡ layout.kind bytes.now }
        requires page { page ≡ layout.page bytes.now }
        ensures { result ≡ directory_in bytes.now }
    {
        let version = be32_at(bytes, 8);
        Directory {
            length: be32_at(bytes, 4),
            version,
            hash_offset: be32_at(bytes, 16),
            ident_offset: be32_at(bytes, 20),
            special_slots: be32_at(bytes, 24),
            code_slots: be32_at(bytes, 28),
            kind,
            page,
            flags: be32_at(bytes, 12),
            limit: limit_of(bytes, version),
        }
    }

    /// The hash of page `i`, counted from 0, or `None` exactly where there are not so many code slots. It has
    /// as many bytes as the hash type.
    pub fn slot<'a>(&self, bytes: &'a [u8], i: u64) -> Option<&'a [u8]>
        requires { IsDirectory bytes.now self.now }
        ensures none { IfNone result (self.now.code_slots ≤ i) }
        ensures within { OnSome result (i < self.now.code_slots) }
        ensures slot { IfSome result (λ slot. slot.now ≡ slot_at bytes.now i) }
        ensures size { IfSome result (λ slot. length slot.now ≡ size_of self.now.kind) }
    {
        if i >= u64::from(self.code_slots) {
            return None;
        }
        let size = u64::from(size(self.kind));
        let start = u64::from(self.hash_offset);
        let slot = Range {
            at: start + i * size,
            len: size,
        };
        Some(bytes_in(bytes, &slot))
    }

    /// Special slot `t`, counted from 1, or `None` exactly where `t` is 0 or there are not so many special
    /// slots. It has as many bytes as the hash type.
    pub fn special<'a>(&self, bytes: &'a [u8], t: u64) -> Option<&'a [u8]>
        requires { IsDirectory bytes.now self.now }
        ensures none { IfNone result ((t ≡ 0) ⊎ (self.now.special_slots < t)) }
        ensures within { OnSome result ((0 < t) × (t ≤ self.now.special_slots)) }
        ensures slot { IfSome result (λ slot. slot.now ≡ special_at bytes.now t) }
        ensures size { IfSome result (λ slot. length slot.now ≡ size_of self.now.kind) }
    {
        if t == 0 || t > u64::from(self.special_slots) {
            return None;
        }
        let size = u64::from(size(self.kind));
        let end = u64::from(self.hash_offset);
        let slot = Range {
            at: end - t * size,
            len: size,
        };
        Some(bytes_in(bytes, &slot))
    }

    /// How many bytes of the file the code slots sign: the 64-bit field, where the version has it and it is
    /// not 0, and else the 32-bit field.
    pub fn limit(&self) -> u64
        ensures { result ≡ self.now.limit }
    {
        self.limit
    }

    /// The hash type of the slots and of the cdhash.
    pub fn kind(&self) -> HashKind
        ensures { result ≡ self.now.kind }
    {
        self.kind
    }

    /// How many bytes a hash page has, 4,096 or 16,384: 2 to the power of the field pageSize.
    pub fn page_size(&self) -> u64
        ensures size { result ≡ bytes_of self.now.page }
        ensures power { result ≡ 2 ^ bits_of self.now.page }
        ensures known { (result ≡ 4096) ⊎ (result ≡ 16384) }
    {
        self.page.bytes()
    }

    /// The field pageSize, 12 or 14: the base-2 logarithm of the size of a hash page.
    pub fn page_bits(&self) -> u64
        ensures { result ≡ bits_of self.now.page }
    {
        u64::from(self.page.bits())
    }

    /// The flags field, without the bits outside `FLAG_MASK`, which have no effect.
    pub fn flags(&self) -> u32
        ensures { result ≡ bit_and self.now.flags flag_mask }
    {
        self.flags & FLAG_MASK
    }

    /// How many code slots there are.
    pub fn slots(&self) -> u64
        ensures { result ≡ self.now.code_slots }
    {
        u64::from(self.code_slots)
    }

    /// How many special slots there are.
    pub fn special_slots(&self) -> u64
        ensures { result ≡ self.now.special_slots }
    {
        u64::from(self.special_slots)
    }

    /// How many bytes the directory has, all its parts together.
    pub fn length(&self) -> u64
        ensures { result ≡ self.now.length }
    {
        u64::from(self.length)
    }

    /// The version of the layout, from 0x20000 to 0x2ffff.
    pub fn version(&self) -> u64
        ensures { result ≡ self.now.version }
    {
        u64::from(self.version)
    }

    /// The identifier, without the zero byte that ends it.
    pub fn ident<'a>(&self, bytes: &'a [u8]) -> &'a [u8]
        requires { IsDirectory bytes.now self.now }
        ensures { result.now ≡ ident_at bytes.now }
    {
        before_zero(behind(front(bytes, self.length), self.ident_offset))
    }

    /// The cdhash, by which trust caches list the directory: the first 20 bytes of the digest of the whole
    /// directory by its own hash type.
    pub fn cdhash<D: Digester>(&self, bytes: &[u8], d: &mut D) -> [u8; 20]
        requires { IsDirectory bytes.now self.now }
        ensures value { result ≡ cdhash D.hash bytes.now }
        ensures counted { Rose (D.calls d.old) (D.calls d.new) }
        ensures once { D.calls d.new ≤ D.calls d.old + 1 }
    {
        let digest = d.hash(self.kind, front(bytes, self.length));
        let mut first = [0; 20];
        first.copy_from_slice(&digest_bytes(&digest)[..20]);
        first
    }
}
