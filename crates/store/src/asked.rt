// What a call asks with: the image, the map, and the words in which it remembers the chunks that it
// located. Each chunk that they hold stands there.
ghost use Rattle.std.specs.Prelude.{◌≡◌};
ghost use Rattle.store.specs.Memory.{RightWords, IsRecalled};

use super::Map;
use memory::Recalled;
use std::marker::Model;

// A clause sees the image and the map.
#[derive(Drop)]
pub(crate) struct Asked<'a> {
    pub(crate) image: &'a [u8],
    pub(crate) map: Map,
    pub(crate) words: &'a mut [u64],
}

impl<'a> Model for Asked<'a> {
    ghost use Rattle.store.specs.Memory.{RightWords, Question};

    ghost Value = { Question };

    ghost view = { λ a. record { image = a.image.now; map = a.map } };

    ghost invariant = { λ a. RightWords a.image.now a.map.store a.words.now };
}

impl<'a> Asked<'a> {
    pub(crate) fn new(image: &'a [u8], map: Map, words: &'a mut [u64]) -> Asked<'a>
        requires { RightWords image.now map.store words.old }
        ensures { result ≡ record { image = image.now; map = map } }
    {
        Asked { image, map, words }
    }

    // What is remembered of chunk `c`.
    pub(crate) fn recall(&self, c: u32) -> Recalled
        ensures { IsRecalled self.now.image self.now.map.store c result }
    {
        memory::recall(self.words, c)
    }
}
