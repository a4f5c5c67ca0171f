// Text lines: the line of an area, its fields, and the sum in its last field.
#![tactic(auto)]

mod field;
mod read;
mod sum;

ghost use Rattle.std.specs.Prelude.{◌≤◌, ◌≡◌, length};
ghost use Rattle.line.specs.Line.{line_of, trimmed};

pub use field::{Field, field_at};
pub use read::{Fields, Name, read_fields};
pub use sum::right_sum;

// The line of an area: its length, and the place of the newline after it.
#[derive(Clone, Copy, Debug, PartialEq, Eq)]
pub struct Line {
    pub len: usize,
    pub newline: usize,
}

// How many of the first `n` bytes of `s` are left without trailing spaces.
fn trim(s: &[u8], n: usize) -> usize
    requires { n ≤ length s.now }
    ensures { result ≡ trimmed n s.now }
{
    for i in (0..n).rev() {
        if s[i] != b' ' {
            return i + 1;
        }
    }
    0
}

// The line that `area` begins with.
#[tactic(auto, unfolding(crate::specs::Line::line_of))]
pub fn line_of(area: &[u8]) -> Option<Line>
    ensures { result ≡ line_of area.now }
{
    let newline = text::find_byte(area, 0, b'\n');
    if newline < area.len() {
        Some(Line {
            len: trim(area, newline),
            newline,
        })
    } else {
        None
    }
}
