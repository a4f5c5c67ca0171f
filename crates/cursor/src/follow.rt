// One page of a walk: what follows a number at it, and what is first.
ghost use Rattle.std.specs.Prelude.{◌≡◌, Ok};
ghost use Rattle.cursor.specs.Steps.{after_of, after_child, first_of, over_of};

use content::Entry;
use key::Kind;
use page::{Inner, Judged, Leaf};
use position::Position;
use refusal::Refusal;

// What follows a number at the page that it is used at: the entry after it, no entry more, the child
// with no other after it, or the child and the one after it.
#[derive(Clone, Copy, Debug, PartialEq, Eq)]
pub enum After {
    Entry(Entry),
    Over,
    Last(Position),
    Child { position: Position, after: Position },
}

// The child that is next at a level, and its number there.
#[derive(Clone, Copy, Debug, PartialEq, Eq)]
pub struct Left {
    pub level: u32,
    pub number: u32,
    pub position: Position,
}

// Where the way down by the numbers ends: at the entry that is next, whose number is the last, or at
// the child that is next at a level, or with no entry left.
#[derive(Clone, Copy, Debug, PartialEq, Eq)]
pub enum Down {
    Entry {
        level: u32,
        number: u32,
        entry: Entry,
    },
    Left(Left),
    Over,
}

// The leftmost entry under a page, and the depth of its leaf.
#[derive(Clone, Copy, Debug, PartialEq, Eq)]
pub struct Leftmost {
    pub depth: u32,
    pub entry: Entry,
}

// What follows number `i` at a leaf; it must be the last number.
fn after_entry(image: &[u8], kind: Kind, leaf: Leaf, i: u32, last: bool) -> Result<After, Refusal>
    ensures { result ≡ after_of image.now kind i last (Ok (Judged.Leaf leaf)) }
{
    if !last || leaf.n <= i {
        return Err(Refusal::Unsound);
    }
    let s = page::cut(image, leaf.end);
    let next = content::nth_entry(s, kind, leaf, i as u64 + 1);
    Ok(next.map_or(After::Over, After::Entry))
}

// What follows number `i` at an inner page; it must not be the last number.
fn after_child(image: &[u8], page: Inner, i: u32, last: bool) -> Result<After, Refusal>
    ensures { result ≡ after_child image.now page i last }
{
    if last || page.n < i {
        return Err(Refusal::Unsound);
    }
    let s = page::cut(image, page.end);
    let position = content::child(s, page, i);
    if i == page.n {
        return Ok(After::Last(position));
    }
    Ok(After::Child {
        position,
        after: content::child(s, page, i + 1),
    })
}

// What follows number `i` at a page; `last` says whether it is the last number. A page that was refused
// may be given too: its refusal is handed up.
pub fn after_at(
    image: &[u8],
    kind: Kind,
    page: Result<Judged, Refusal>,
    i: u32,
    last: bool,
) -> Result<After, Refusal>
    ensures { result ≡ after_of image.now kind i last page }
{
    match page? {
        Judged::Leaf(leaf) => after_entry(image, kind, leaf, i, last),
        Judged::Inner(inner) => after_child(image, inner, i, last),
    }
}

// What is next where a leaf has no entry more: under the child found on the way down, if one was.
pub fn over_at(left: Option<Left>) -> Down
    ensures { result ≡ over_of left }
{
    match left {
        Some(left) => Down::Left(left),
        None => Down::Over,
    }
}

// One page on the way down to the left: its first child, its first entry, or neither. A refusal given
// for it is handed up.
pub fn first_at(image: &[u8], kind: Kind, page: Result<Judged, Refusal>) -> Result<After, Refusal>
    ensures { result ≡ first_of image.now kind page }
{
    match page? {
        Judged::Leaf(leaf) => {
            let s = page::cut(image, leaf.end);
            let first = content::nth_entry(s, kind, leaf, 0);
            Ok(first.map_or(After::Over, After::Entry))
        }
        Judged::Inner(inner) => {
            let s = page::cut(image, inner.end);
            Ok(After::Last(content::child(s, inner, 0)))
        }
    }
}
