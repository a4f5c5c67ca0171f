// Runs of bytes. Definitions and laws in specs/; here the searches and tests that code makes of them.
#![tactic(auto)]

mod spot;

ghost use Rattle.std.specs.Prelude.{◌+◌, ◌<◌, ◌≤◌, ◌≡◌, length, take, drop};
ghost use Rattle.text.specs.Text.{bytes_at, span, is_not, is_letter, every, is_printable, same};

pub use spot::Spot;

// The `n` bytes at `at`, or as many of them as there are.
pub fn bytes_at(s: &[u8], at: usize, n: usize) -> &[u8]
    ensures { result.now ≡ bytes_at s.now at n }
{
    let end = s.len();
    if end <= at {
        return &s[end..end];
    }
    if end - at <= n {
        return &s[at..end];
    }
    let to = at + n;
    &s[at..to]
}

// The place of the first `b` from `from` on; where there is none, the place after the last byte. A `for`,
// here and below: `position` takes a tenth longer on the short texts that lines have.
pub fn find_byte(s: &[u8], from: usize, b: u8) -> usize
    ensures { result ≡ from + span (is_not b) (drop from s.now) }
{
    for i in from..s.len() {
        if s[i] == b {
            return i;
        }
    }
    from.max(s.len())
}

// The place after the letters at `from`.
pub fn letters_end(s: &[u8], from: usize) -> usize
    ensures { result ≡ from + span is_letter (drop from s.now) }
{
    for i in from..s.len() {
        if !s[i].is_ascii_alphabetic() {
            return i;
        }
    }
    from.max(s.len())
}

// Whether a byte is 32 to 126. No branch: of eight such tests joined by `&` a compiler makes one.
fn printable(b: u8) -> bool
    ensures { result ≡ is_printable b }
{
    (32 <= b) & (b <= 126)
}

fn four_printable(s: &[u8], i: usize) -> bool
    requires { i + 4 ≤ length s.now }
    ensures { result ≡ every is_printable (take 4 (drop i s.now)) }
{
    printable(s[i]) & printable(s[i + 1]) & printable(s[i + 2]) & printable(s[i + 3])
}

fn eight_printable(s: &[u8], i: usize) -> bool
    requires { i + 8 ≤ length s.now }
    ensures { result ≡ every is_printable (take 8 (drop i s.now)) }
{
    four_printable(s, i) & four_printable(s, i + 4)
}

fn sixteen_printable(s: &[u8], i: usize) -> bool
    requires { i + 16 ≤ length s.now }
    ensures { result ≡ every is_printable (take 16 (drop i s.now)) }
{
    eight_printable(s, i) & eight_printable(s, i + 8)
}

// All bytes of a text, one by one.
fn each_printable(s: &[u8]) -> bool
    ensures { result ≡ every is_printable s.now }
{
    s.iter().all(|&b| printable(b))
}

// All bytes of a text of fewer than eight.
fn few_printable(s: &[u8]) -> bool
    requires { length s.now < 8 }
    ensures { result ≡ every is_printable s.now }
{
    if s.len() < 4 {
        return each_printable(s);
    }
    four_printable(s, 0) & four_printable(s, s.len() - 4)
}

// All bytes of a text of fewer than sixteen.
fn short_printable(s: &[u8]) -> bool
    requires { length s.now < 16 }
    ensures { result ≡ every is_printable s.now }
{
    if s.len() < 8 {
        return few_printable(s);
    }
    eight_printable(s, 0) & eight_printable(s, s.len() - 8)
}

// Whether all bytes of `s` are 32 to 126. Sixteen at a time, and the last sixteen, some of which may have
// been tested before.
pub fn all_printable(s: &[u8]) -> bool
    ensures { result ≡ every is_printable s.now }
{
    if s.len() < 16 {
        return short_printable(s);
    }
    let last = s.len() - 16;
    for i in (0..last).step_by(16) {
        if !sixteen_printable(s, i) {
            return false;
        }
    }
    sixteen_printable(s, last)
}

// Whether `s` and `t` are the same bytes.
pub fn same_bytes(s: &[u8], t: &[u8]) -> bool
    ensures { result ≡ same s.now t.now }
{
    s == t
}
