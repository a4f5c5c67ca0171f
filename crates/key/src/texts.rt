// Texts in their order: by byte, a beginning before its extension. std's order of slices goes byte by
// byte; longer texts go eight bytes at a time here, for speed.
ghost use Rattle.std.specs.Prelude.{◌≡◌, ◌+◌, ◌≤◌, length, take, drop};
ghost use Rattle.key.specs.Key.{texts_order};

use numeral::be64;
use std::cmp::Ordering;

// Eight bytes, which compare as the number that they are, high byte first.
fn compare_eight(a: &[u8], b: &[u8]) -> Ordering
    requires { (length a.now ≡ 8) × (length b.now ≡ 8) }
    ensures { result ≡ texts_order a.now b.now }
{
    be64(a, 0).cmp(&be64(b, 0))
}

// The eight bytes at `i`.
fn compare_at(a: &[u8], b: &[u8], i: usize) -> Ordering
    requires { (i + 8 ≤ length a.now) × (i + 8 ≤ length b.now) }
    ensures { result ≡ texts_order (take 8 (drop i a.now)) (take 8 (drop i b.now)) }
{
    compare_eight(&a[i..i + 8], &b[i..i + 8])
}

// The first `n` bytes, eight at a time, and the last eight of them, some of which may have been found
// equal before.
fn compare_words(a: &[u8], b: &[u8], n: usize) -> Ordering
    requires { (8 ≤ n) × (n ≤ length a.now) × (n ≤ length b.now) }
    ensures { result ≡ texts_order (take n a.now) (take n b.now) }
{
    let last = n - 8;
    for i in (0..last).step_by(8) {
        let o = compare_at(a, b, i);
        if o.is_ne() {
            return o;
        }
    }
    compare_at(a, b, last)
}

pub fn compare_texts(a: &[u8], b: &[u8]) -> Ordering
    ensures { result ≡ texts_order a.now b.now }
{
    let n = a.len().min(b.len());
    if n < 8 {
        return a.cmp(b);
    }
    compare_words(a, b, n).then(a.len().cmp(&b.len()))
}
