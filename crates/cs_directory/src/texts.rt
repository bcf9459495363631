//! Texts at places that are known to be within the bytes.

ghost use Rattle.std.specs.Prelude.{◌≡◌, ◌≤◌, ◌==◌, length, take, drop, position};
ghost use Rattle.std.specs.List.{before_first};

/// The first `count` bytes.
pub fn front(bytes: &[u8], count: u32) -> &[u8]
    requires { count ≤ length bytes.now }
    ensures { result.now ≡ take count bytes.now }
{
    &bytes[..count as usize]
}

/// The bytes from `at` on.
pub fn behind(bytes: &[u8], at: u32) -> &[u8]
    requires { at ≤ length bytes.now }
    ensures { result.now ≡ drop at bytes.now }
{
    &bytes[at as usize..]
}

/// The place of the first zero byte.
pub fn zero_place(bytes: &[u8]) -> Option<usize>
    ensures { result ≡ position (λ b. b == 0) bytes.now }
{
    bytes.iter().position(|b| *b == 0)
}

/// The bytes before the first zero byte, or all where there is none.
pub fn before_zero(bytes: &[u8]) -> &[u8]
    ensures { result.now ≡ before_first (λ b. b == 0) bytes.now }
{
    match zero_place(bytes) {
        Some(place) => &bytes[..place],
        None => bytes,
    }
}
