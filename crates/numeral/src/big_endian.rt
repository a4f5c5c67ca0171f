// Numbers of 2, 4 and 8 bytes, high byte first.
ghost use Rattle.std.specs.Prelude.{◌≡◌, ◌+◌, ◌<◌, ◌≤◌, length, take, drop, MatchOption};
ghost use Rattle.numeral.specs.BigEndian.{big_endian_at};

// The `N` bytes at `at`, where they all stand in `s`.
fn bytes_at<const N: usize>(s: &[u8], at: usize) -> Option<&[u8; N]>
    ensures { MatchOption result (length s.now < at + N)
        (λ bytes. (at + N ≤ length s.now) × (bytes.now ≡ take N (drop at s.now))) }
{
    s.get(at..)?.first_chunk()
}

// The number in the two bytes at `at`; 0 where they do not both stand in `s`.
pub fn be16(s: &[u8], at: usize) -> u16
    ensures { result ≡ big_endian_at 2 s.now at }
{
    match bytes_at::<2>(s, at) {
        Some(bytes) => u16::from_be_bytes(*bytes),
        None => 0,
    }
}

// The same of four bytes.
pub fn be32(s: &[u8], at: usize) -> u32
    ensures { result ≡ big_endian_at 4 s.now at }
{
    match bytes_at::<4>(s, at) {
        Some(bytes) => u32::from_be_bytes(*bytes),
        None => 0,
    }
}

// The same of eight bytes.
pub fn be64(s: &[u8], at: usize) -> u64
    ensures { result ≡ big_endian_at 8 s.now at }
{
    match bytes_at::<8>(s, at) {
        Some(bytes) => u64::from_be_bytes(*bytes),
        None => 0,
    }
}
