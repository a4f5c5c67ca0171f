// A run of a text's bytes, by its place.
ghost use Rattle.std.specs.Prelude.{◌≡◌};
ghost use Rattle.text.specs.Text.{bytes_at};

use crate::bytes_at;

// Bytes by place and length.
#[derive(Clone, Copy, Debug, PartialEq, Eq)]
pub struct Spot {
    pub at: usize,
    pub len: usize,
}

impl Spot {
    // Its bytes, or as many of them as there are.
    pub fn bytes(self, s: &[u8]) -> &[u8]
        ensures { result.now ≡ bytes_at s.now self.at self.len }
    {
        bytes_at(s, self.at, self.len)
    }
}
