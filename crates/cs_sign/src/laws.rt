//! What the trust caches of signed files list.

ghost use Rattle.std.specs.Prelude.{◌≡◌, ◌≤◌, ℕ, List, length, Ok};
ghost use Rattle.pg_digest.specs.Digests.{sha_hash};
ghost use Rattle.cs_sign.specs.Requests.{Request};
ghost use Rattle.cs_sign.specs.Early.{most};
ghost use Rattle.cs_sign.specs.Reading.{Found};
ghost use Rattle.cs_sign.specs.Ending.{cache_run};
ghost use Rattle.cs_sign.specs.Verified.{IsVerified};
ghost use Rattle.cs_sign.specs.Listing.{ListsSlices, IsListed, signed_cdhash};

/// Of the trust cache that a run of `cache` makes of at most 64 files: a reader of trust caches takes it, and finds in it
/// the cdhashes of the slices of these files, and no others.
pub fn caches_list_slices()
    ensures { (found : List Found) (made : List ℕ) → length found ≤ 64
        → cache_run sha_hash found ≡ Ok made → ListsSlices sha_hash found made }
{}

/// Of a signed file of at most 67,108,864 bytes: a run of `cache` makes a trust cache of it, and where one makes a trust
/// cache of it and of other files, at most 64 in all, the cdhash of the new code directory is found there.
pub fn signed_files_are_listed()
    ensures { (bytes : List ℕ) (request : Request) (signed : List ℕ)
        → IsVerified sha_hash bytes request signed → length signed ≤ most
        → IsListed sha_hash signed (signed_cdhash sha_hash bytes request) }
{}
