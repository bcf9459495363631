// What each caller may use of each part.

/// What one caller may use of one part, as counts. The book itself uses `entries` alone.
#[derive(Clone, Copy)]
pub struct Needs {
    /// Entries that the caller draws on the part.
    pub entries: u64,
    /// Regions.
    pub regions: u64,
    /// Records of mapped pages.
    pub records: u64,
    /// Private copies of pages.
    pub copies: u64,
    /// Attached code directories.
    pub blobs: u64,
    /// Region numbers.
    pub numbers: u64,
}

/// One list for each caller, with one element for each part.
pub type AllNeeds = Vec<Vec<Needs>>;
