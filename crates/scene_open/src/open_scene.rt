//! What a scene's items open to.

use cs_policy::Layout;
use pg_io::MemPager;
use pg_trusted::Trusted;

/// The files and the trust list of a scene, before anything has happened.
#[derive(Drop)]
pub struct OpenScene {
    /// The pagers of the declared files, by their numbers.
    pub files: Vec<MemPager>,
    /// The layouts of the same files.
    pub layouts: Vec<Layout>,
    /// The trust list, in which no trust cache is loaded.
    pub trust: Trusted,
}
