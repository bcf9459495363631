/// One call of a pager: which page it reads or writes.
#[derive(Clone, Copy, Debug, PartialEq, Eq)]
pub enum PagerCall {
    /// The page is read into memory.
    Reads { page: u64 },
    /// The whole page is written to the file.
    Writes { page: u64 },
}
