// How the programs read their input: lines, the words of a line, and what a word is as a number or as
// bytes. Nothing here refuses: what is missing is empty, what does not fit is lost.
#![tactic(auto)]

ghost use Rattle.std.specs.Prelude.{◌%◌, ◌<◌, ◌≡◌};
ghost use Rattle.script.specs.Script.{line_at, next_line, word_of, named, digit_of, with_digit, number_in, byte_of, fitting, area_after, Holds};

// The line that begins at `at`.
pub fn line(input: &[u8], at: usize) -> &[u8]
    ensures { result.now ≡ line_at input.now at }
{
    let from = at.min(input.len());
    &input[from..text::find_byte(input, from, b'\n')]
}

// Where the line after the one at `at` begins, or the end.
pub fn next_line(input: &[u8], at: usize) -> usize
    ensures { result ≡ next_line input.now at }
{
    let end = text::find_byte(input, at, b'\n');
    end.saturating_add(1).min(input.len())
}

// Word number `k` of a line.
pub fn word(line: &[u8], k: usize) -> &[u8]
    ensures { result.now ≡ word_of line.now k }
{
    line.split(|b| *b == b' ').nth(k).unwrap_or(&[])
}

// Whether the line's first word is `name`.
pub fn is(line: &[u8], name: &[u8]) -> bool
    ensures { result ≡ named line.now name.now }
{
    text::same_bytes(word(line, 0), name)
}

fn digit(b: u8) -> u8
    ensures { (result ≡ digit_of b) × (result < 16) }
{
    if b < b'a' { b % 16 } else { (b - 87) % 16 }
}

// The number with one digit more behind it.
fn with_digit(base: u8, value: u64, b: u8) -> u64
    ensures { result ≡ with_digit base value b }
{
    value
        .wrapping_mul(base as u64)
        .wrapping_add(digit(b) as u64)
}

// The number that word `k` is in a base.
pub fn number(line: &[u8], k: usize, base: u8) -> u64
    ensures { result ≡ number_in base (word_of line.now k) }
{
    word(line, k)
        .iter()
        .fold(0, |value, b| with_digit(base, value, *b))
}

// Its low 32 bits.
pub fn number32(line: &[u8], k: usize, base: u8) -> u32
    ensures { result ≡ number_in base (word_of line.now k) % 4294967296 }
{
    (number(line, k, base) % 4294967296) as u32
}

fn byte(high: u8, low: u8) -> u8
    ensures { result ≡ byte_of high low }
{
    digit(high) * 16 + digit(low)
}

// Writes the bytes that word `k` is to the start of `area`, as many as it has room for: how many.
pub fn bytes(line: &[u8], k: usize, area: &mut [u8]) -> usize
    ensures count { result ≡ fitting (word_of line.now k) area.old }
    ensures area { area.new ≡ area_after (word_of line.now k) area.old }
    ensures inside { Holds area.new result }
{
    let w = word(line, k);
    let count = (w.len() / 2).min(area.len());
    for n in 0..count {
        area[n] = byte(w[2 * n], w[2 * n + 1]);
    }
    count
}
