// Bytes after their length: text keys and values.
ghost use Rattle.std.specs.Prelude.{◌≡◌};
ghost use Rattle.key.specs.Sized.{sized_at};

use text::Spot;

// Where the bytes stand, and the place after them.
#[derive(Clone, Copy, Debug, PartialEq, Eq)]
pub struct Sized {
    pub spot: Spot,
    pub next: usize,
}

// A variable-size length below `limit` at `at`, and as many bytes.
pub fn sized_at(s: &[u8], at: usize, limit: u64) -> Option<Sized>
    ensures { result ≡ sized_at limit s.now at }
{
    let n = numeral::read_var(s, at, limit)?;
    let len = n.value as usize;
    if s.len() - n.next < len {
        return None;
    }
    Some(Sized {
        spot: Spot { at: n.next, len },
        next: n.next + len,
    })
}
