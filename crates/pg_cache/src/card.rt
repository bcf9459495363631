/// What stands in a frame: the page of this number, and whether the pager does not have its bytes yet.
#[derive(Clone, Copy)]
pub(crate) struct Card {
    pub(crate) page: u64,
    pub(crate) dirty: bool,
}
