// Hexadecimal numbers of lines and of metadata values: 1 to 16 digits, no leading zero unless `0`.
ghost use Rattle.std.specs.Prelude.{◌<◌, ◌≡◌};
ghost use Rattle.numeral.specs.Hex.{digit_said, hex_of, hex_run_at, digit_byte, text_of, Written};

use super::Numeral;

// A number's digits: the bytes from `start` on.
#[derive(Clone, Copy)]
pub struct Digits {
    pub bytes: [u8; 16],
    pub start: usize,
}

impl Digits {
    pub fn text(&self) -> &[u8]
        ensures { result.now ≡ text_of self.now }
    {
        self.bytes.get(self.start..).unwrap_or(&[])
    }
}

// The value of a digit.
fn digit_value(b: u8) -> Option<u64>
    ensures { result ≡ digit_said b }
{
    match b {
        b'0'..=b'9' => Some(u64::from(b - b'0')),
        b'a'..=b'f' => Some(u64::from(b - b'a') + 10),
        _ => None,
    }
}

// The number that the run of digits at `at` is, and the place after the run.
pub fn hex_at(s: &[u8], at: usize) -> Option<Numeral>
    ensures { result ≡ hex_run_at s.now at }
{
    let first = *s.get(at)?;
    let mut value = digit_value(first)?;
    for i in at + 1..s.len() {
        let Some(d) = digit_value(s[i]) else {
            return Some(Numeral { value, next: i });
        };
        if first == b'0' {
            return None;
        }
        if i - at == 16 {
            return None;
        }
        value = value * 16 + d;
    }
    Some(Numeral {
        value,
        next: s.len(),
    })
}

// The number that the whole text is.
pub fn read_hex(text: &[u8]) -> Option<u64>
    ensures { result ≡ hex_of text.now }
{
    let n = hex_at(text, 0)?;
    if n.next == text.len() {
        Some(n.value)
    } else {
        None
    }
}

fn digit_byte(d: u64) -> u8
    requires { d < 16 }
    ensures { result ≡ digit_byte d }
{
    if d < 10 {
        b'0' + d as u8
    } else {
        b'a' + (d - 10) as u8
    }
}

// The digits of `n`, the low one last.
pub fn write_hex(n: u64) -> Digits
    ensures { Written n result }
{
    let mut bytes = [0u8; 16];
    let mut start: usize = 16;
    let mut left = n;
    // By what is left of the number, which no range counts.
    while 16 <= left {
        start -= 1;
        bytes[start] = digit_byte(left % 16);
        left /= 16;
    }
    start -= 1;
    bytes[start] = digit_byte(left);
    Digits { bytes, start }
}
