//! Names at places that are known to be within the bytes.

ghost use Rattle.std.specs.Prelude.{◌≡◌, ◌+◌, ◌≤◌, length, take, drop};

/// The sixteen bytes at `at`.
pub fn name(bytes: &[u8], at: u64) -> [u8; 16]
    requires { at + 16 ≤ length bytes.now }
    ensures { result ≡ take 16 (drop at bytes.now) }
{
    let at = at as usize;
    let mut name = [0; 16];
    name.copy_from_slice(&bytes[at..at + 16]);
    name
}
