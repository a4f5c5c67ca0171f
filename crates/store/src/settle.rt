// A chunk's location by the metadata's answer, and what is remembered of it.
ghost use Rattle.std.specs.Prelude.{◌≤◌, ◌≡◌};
ghost use Rattle.metadata.specs.Answers.{need_of};
ghost use Rattle.store.specs.Steps.{settled_location, settled_words};

use fletcher::Edition;
use metadata::{Answer, Location, location_by};
use refusal::Refusal;

// What the metadata's answer says of chunk `n`, which is one question more; where the chunk stands, it
// is remembered.
pub(crate) fn settle(
    words: &mut [u64],
    image: &[u8],
    edition: Edition,
    n: u32,
    f: Result<Answer, Refusal>,
) -> Result<Location, Refusal>
    requires { need_of f ≤ 7 }
    ensures { (result ≡ settled_location image.now edition n f) × (words.new ≡ settled_words n words.old result) }
{
    let l = location_by(image, edition, n, f)?;
    let need = l.need + 1;
    memory::remember(words, n, l.place, need);
    Ok(Location {
        place: l.place,
        need,
    })
}
