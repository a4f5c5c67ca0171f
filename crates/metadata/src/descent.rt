// One page of a descent, and a descent after it.
ghost use Rattle.std.specs.Prelude.{◌≡◌};
ghost use Rattle.key.specs.Key.{key_of};
ghost use Rattle.content.specs.Content.{page_in};
ghost use Rattle.metadata.specs.Descent.{step_of, advance_of};

use super::{Answer, Location};
use key::Kind;
use page::{Judged, Place};
use position::Position;
use refusal::Refusal;
use text::Spot;

// One page of a descent: the child to go on at, or the value that a leaf has, if it has one.
#[derive(Clone, Copy, Debug, PartialEq, Eq)]
pub enum Step {
    Child(Position),
    Leaf(Option<Spot>),
}

// A descent after one page more: the position to go on at, or the answer.
#[derive(Clone, Copy, Debug, PartialEq, Eq)]
pub enum Advance {
    To { position: Position, need: u32 },
    Done(Answer),
}

// What the page at position `p` of a located chunk answers a lookup of `key`.
fn step_at(
    image: &[u8],
    place: Place,
    p: Position,
    map: u32,
    kind: Kind,
    key: &[u8],
) -> Result<Step, Refusal>
    ensures { result ≡ step_of (key_of kind key.now) (page_in image.now place p.bits map kind) }
{
    match page::judge(image, place, p, map, kind)? {
        Judged::Leaf(leaf) => {
            let s = page::cut(image, leaf.end);
            Ok(Step::Leaf(content::find_key(s, kind, leaf, key)))
        }
        Judged::Inner(inner) => {
            let s = page::cut(image, inner.end);
            let k = content::lead_keys(s, kind, inner, key);
            Ok(Step::Child(content::child(s, inner, k)))
        }
    }
}

// A descent after the page at `p`, whose chunk `l` tells of; `need` is what it took so far.
pub fn advance_at(
    image: &[u8],
    l: Result<Location, Refusal>,
    need: u32,
    p: Position,
    map: u32,
    kind: Kind,
    key: &[u8],
) -> Result<Advance, Refusal>
    ensures { result ≡ advance_of (λ x. step_of (key_of kind key.now) (page_in image.now x p.bits map kind)) need l }
{
    let location = l?;
    let need = need.max(location.need);
    match step_at(image, location.place, p, map, kind, key)? {
        Step::Child(position) => Ok(Advance::To { position, need }),
        Step::Leaf(value) => Ok(Advance::Done(Answer { value, need })),
    }
}
