// The sum in a line's last field.
ghost use Rattle.std.specs.Prelude.{◌+◌, ◌<◌, ◌≡◌, true, length, drop};
ghost use Rattle.text.specs.Text.{every, is_not};
ghost use Rattle.names.specs.Names.{comma};
ghost use Rattle.line.specs.Fields.{right_sum};
ghost use Rattle.line.specs.Reading.{ends_right};

use super::field::field_at;
use fletcher::Edition;

// Whether a right `fletcher` follows the last comma, which stands at `n`.
fn ends_right(edition: Edition, line: &[u8], n: usize) -> bool
    requires { (n < length line.now) × (every (is_not comma) (drop (n + 1) line.now) ≡ true) }
    ensures { result ≡ ends_right edition line.now n }
{
    let from = n + 1;
    let Some(field) = field_at(line, from) else {
        return false;
    };
    text::same_bytes(b"fletcher", &line[from..field.colon])
        && field.value == fletcher::sum_text(edition, &line[..n])
}

// Whether the line's last field is `fletcher` and is right over the bytes before the comma in front.
pub fn right_sum(edition: Edition, line: &[u8]) -> bool
    ensures { result ≡ right_sum edition line.now }
{
    for n in (0..line.len()).rev() {
        if line[n] == b',' {
            return ends_right(edition, line, n);
        }
    }
    false
}
