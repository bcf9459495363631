/// A read or a write of this page failed, by a fault of the pager.
#[derive(Clone, Copy, Debug, PartialEq, Eq)]
pub struct PagerFault {
    pub page: u64,
}
