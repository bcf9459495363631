//! What a file is to be signed with, and how large its signature is then.

ghost use Rattle.std.specs.Prelude.{◌≡◌, ◌+◌, ◌≤◌, ◌<◌, ◌^◌, length, option_map};
ghost use Rattle.cs_sign.specs.Requests.{asked, page_of, IsModest};
ghost use Rattle.cs_sign.specs.Requests as requests;

use cs_directory::HashPage as PageSize;
use std::marker::Model;

/// How many bytes of the file a code slot is the digest of.
#[derive(Clone, Copy, Debug, PartialEq, Eq)]
pub enum HashPage {
    /// 4,096 bytes.
    Four,
    /// 16,384 bytes.
    Sixteen,
}

impl HashPage {
    /// The size as a code directory tells it.
    pub(crate) fn size(self) -> PageSize
        ensures { result ≡ page_of self }
    {
        match self {
            HashPage::Four => PageSize::Small,
            HashPage::Sixteen => PageSize::Large,
        }
    }
}

/// What a file is to be signed with.
///
/// Contracts see it as the identifier, the entitlements and the size of hash pages.
#[derive(Drop)]
pub(crate) struct Request<'a> {
    ident: &'a [u8],
    entitlements: Option<&'a [u8]>,
    page: PageSize,
}

impl<'a> Model for Request<'a> {
    ghost use Rattle.std.specs.Prelude.{option_map};
    ghost use Rattle.cs_sign.specs.Requests.{Request};

    ghost Value = { Request };

    ghost view = { λ r. record {
      ident = r.ident.now;
      entitlements = option_map (λ e. e.now) r.entitlements;
      page = r.page;
    } };
}

impl<'a> Request<'a> {
    /// A request for this identifier, these entitlements and hash pages of this size.
    pub(crate) fn new(
        ident: &'a [u8],
        entitlements: Option<&'a [u8]>,
        page: HashPage,
    ) -> Request<'a>
        ensures { result ≡ asked ident.now entitlements.entry page }
    {
        Request {
            ident,
            entitlements,
            page: page.size(),
        }
    }

    /// The identifier.
    pub(crate) fn ident(&self) -> &'a [u8]
        ensures { result.now ≡ self.now.ident }
    {
        self.ident
    }

    /// The entitlements.
    pub(crate) fn entitlements(&self) -> Option<&'a [u8]>
        ensures { option_map (λ e. e.now) result ≡ self.now.entitlements }
    {
        self.entitlements
    }

    /// The size of hash pages.
    pub(crate) fn page(&self) -> PageSize
        ensures { result ≡ self.now.page }
    {
        self.page
    }

    /// How many special slots the code directory has.
    pub(crate) fn special_slots(&self) -> u32
        ensures slots { result ≡ requests.special_slots self.now }
        ensures few { result ≤ 5 }
    {
        if self.entitlements.is_some() { 5 } else { 2 }
    }

    /// How many bytes the entitlements have.
    pub(crate) fn entitlements_len(&self) -> u64
        ensures { result ≡ requests.entitlements_length self.now }
    {
        match self.entitlements {
            Some(entitlements) => entitlements.len() as u64,
            None => 0,
        }
    }

    /// How many code slots the code directory has, where so many bytes are signed.
    pub(crate) fn code_slots(&self, limit: u64) -> u64
        ensures slots { result ≡ requests.code_slots self.now limit }
    {
        limit.div_ceil(self.page.bytes())
    }

    /// Where code slot 0 begins in the code directory.
    pub(crate) fn hash_offset(&self) -> u64
        requires { length self.now.ident ≤ 255 }
        ensures { result ≡ requests.hash_offset self.now }
    {
        88 + (self.ident.len() as u64 + 1) + 32 * u64::from(self.special_slots())
    }

    /// How many bytes the code directory has, where so many bytes are signed.
    pub(crate) fn directory_len(&self, limit: u64) -> u64
        requires ident { length self.now.ident ≤ 255 }
        requires limit { limit < 2 ^ 63 }
        ensures { result ≡ requests.directory_length self.now limit }
    {
        self.hash_offset() + 32 * self.code_slots(limit)
    }

    /// How many bytes the blobs of the signature have, where so many bytes are signed.
    fn parts_len(&self, limit: u64) -> u64
        requires modest { IsModest self.now }
        requires limit { limit < 2 ^ 63 }
        ensures { result ≡ requests.parts_size self.now limit }
    {
        let directory = self.directory_len(limit);
        match self.entitlements {
            Some(entitlements) => directory + 12 + (8 + entitlements.len() as u64) + 8,
            None => directory + 12 + 8,
        }
    }

    /// How many blobs the signature has.
    fn part_count(&self) -> u64
        ensures count { result ≡ requests.part_count self.now }
        ensures few { result ≤ 4 }
    {
        if self.entitlements.is_some() { 4 } else { 3 }
    }

    /// How many bytes the signature has with the zeros behind it, where so many bytes are signed.
    pub(crate) fn data_size(&self, limit: u64) -> u64
        requires modest { IsModest self.now }
        requires limit { limit < 2 ^ 63 }
        ensures size { result ≡ requests.data_size self.now limit }
        ensures fits { result < 2 ^ 63 }
    {
        (12 + 8 * self.part_count() + self.parts_len(limit)).next_multiple_of(16)
    }
}
