//! What a process asks of a page, and what a region permits.

ghost use Rattle.std.specs.Prelude.{◌≡◌};
ghost use Rattle.cs_policy.specs.Access.{permits};

/// What a process asks of a page.
#[derive(Clone, Copy, Debug, PartialEq, Eq)]
pub enum Access {
    Read,
    Write,
    Execute,
}

/// What a region permits of its pages: R is reading, W is writing, X is execution.
#[derive(Clone, Copy, Debug, PartialEq, Eq)]
pub enum Prot {
    R,
    RW,
    RX,
    RWX,
}

impl Prot {
    /// Whether the access is permitted.
    pub fn permits(self, access: Access) -> bool
        ensures { result ≡ permits self access }
    {
        match access {
            Access::Read => true,
            Access::Write => matches!(self, Prot::RW | Prot::RWX),
            Access::Execute => matches!(self, Prot::RX | Prot::RWX),
        }
    }
}
