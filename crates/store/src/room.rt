// The words in which a call remembers the chunks that it located. A public function makes them and
// lends them to what does the work. Clearing many takes about a microsecond: lookup, index and the
// walk's step, which are asked by the thousand, and the examination have few where the image is small.
ghost use Rattle.std.specs.Prelude.{ℕ, ◌≡◌, List, replicate};
ghost use Rattle.std.specs.Fn.{FnOnceReturnsAtMut};

// An image of fewer bytes has fewer than 256 blocks, and few words have room for its chunks.
const SMALL: usize = 1048576;

// Room for 256 chunks, in 4 KiB.
const FEW: usize = 512;

// Room for 4,096 chunks, all that stand in an image of 16 MiB, in 64 KiB.
pub(crate) const MANY: usize = 8192;

// Asks with as many words as the image needs.
pub(crate) fn with_words<T, F: FnOnce(&mut [u64]) -> T>(image: &[u8], ask: F) -> T
    requires { (n : ℕ) (words : _) → words.now ≡ replicate n 0 → F.pre ask words }
    ensures { (n : ℕ) × (left : List ℕ) × FnOnceReturnsAtMut F.FnOnce ask (replicate n 0) result left }
{
    if image.len() < SMALL {
        return ask(&mut [0u64; FEW]);
    }
    ask(&mut [0u64; MANY])
}
