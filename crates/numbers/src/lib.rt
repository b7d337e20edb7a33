//! 32-bit numbers in the bytes of a lent slice, lowest byte first. What is written is said of the whole buffer, by `put`, as each call
//! that stands on it says it.
#![tactic(auto)]

ghost use Rattle.std.specs.Prelude.{◌≡◌, ◌+◌, ◌≤◌, length};
ghost use Rattle.numbers.specs.Bytes.{le4, number_at, put};

/// The little-endian number that stands in the four bytes from `at` on.
#[inline(always)]
pub fn read_u32(s: &[u8], at: usize) -> u32
    requires fits { at + 4 ≤ length s.now }
    ensures number { result ≡ number_at s.now at }
{
    u32::from_le_bytes(<[u8; 4]>::try_from(&s[at..at + 4]).unwrap())
}

/// Leaves the four bytes of `x`, lowest first, from `at` on.
#[inline(always)]
#[tactic(auto, unfolding(crate::specs::Bytes::put))]
pub fn write_u32(s: &mut [u8], at: usize, x: u32)
    requires fits { at + 4 ≤ length s.old }
    ensures bytes { s.new ≡ put s.old at (le4 x) }
{
    s[at..at + 4].copy_from_slice(&x.to_le_bytes());
}
