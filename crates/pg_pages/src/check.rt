use pg_digest::Digest;

/// Whether the present bytes of a page have the digests that are wanted of its parts.
#[derive(Clone, Copy, Debug, PartialEq, Eq)]
pub enum Check {
    /// Each part has its digest.
    Sealed,
    /// The part at this place, counted from 0, has the digest `found`, which is not its own. Each part before it has
    /// its digest.
    NotSealed { part: u32, found: Digest },
}
