// What one page adds to an examination: a leaf's report, and the children of an inner page.
#![tactic(auto)]

ghost use Rattle.std.specs.Prelude.{◌≡◌};
ghost use Rattle.soundness.specs.Examining.{leaf_of, part_of, recorded_at, separator_at, child_of};

use key::Kind;
use numeral::Numeral;
use page::{Inner, Judged, Leaf};
use position::Position;
use refusal::Refusal;
use rising::{Span, keys_lie, separators_lie};
use text::Spot;
use tree::Report;

// What a page that is judged says by itself: the report of a leaf, or an inner page whose children are
// still to be examined.
#[derive(Clone, Copy, Debug, PartialEq, Eq)]
pub enum Part {
    Leaf(Report),
    Children(Inner),
}

// A child: its position, its recorded count and its right bound; and the places of the next child's
// count and separator.
#[derive(Clone, Copy, Debug, PartialEq, Eq)]
pub struct Child {
    pub position: Position,
    pub count: u64,
    pub hi: Option<Spot>,
    pub counts: usize,
    pub keys: usize,
}

// A separator as a bound, with the place after it.
#[derive(Clone, Copy, Debug, PartialEq, Eq)]
pub struct Separator {
    pub bound: Option<Spot>,
    pub next: usize,
}

// A leaf: only the root may be empty.
fn leaf_of(image: &[u8], kind: Kind, leaf: Leaf, span: Span, top: bool) -> Result<Report, Refusal>
    ensures { result ≡ leaf_of image.now kind leaf span top }
{
    if leaf.n == 0 && !top {
        return Err(Refusal::Unsound);
    }
    if !keys_lie(image, kind, leaf, span) {
        return Err(Refusal::Unsound);
    }
    Ok(Report {
        entries: leaf.n as u64,
        pages: 1,
        depth: 1,
    })
}

// A page that is judged: its own rules before its keys, its separators before its children. A refusal
// given for it is handed up.
pub fn part_at(
    image: &[u8],
    kind: Kind,
    page: Result<Judged, Refusal>,
    span: Span,
    top: bool,
) -> Result<Part, Refusal>
    ensures { result ≡ part_of image.now kind span top page }
{
    match page? {
        Judged::Leaf(leaf) => {
            let report = leaf_of(image, kind, leaf, span, top)?;
            Ok(Part::Leaf(report))
        }
        Judged::Inner(inner) => {
            if !separators_lie(image, kind, inner, span) {
                return Err(Refusal::Unsound);
            }
            Ok(Part::Children(inner))
        }
    }
}

// The recorded count at a place, and the place after it; both 0 where none stands there.
fn count_at(s: &[u8], at: usize) -> Numeral
    ensures { result ≡ recorded_at s.now at }
{
    let none = Numeral { value: 0, next: 0 };
    numeral::read_var(s, at, item::COUNT_LIMIT).unwrap_or(none)
}

// The separator at a place, and the place after it.
fn separator_at(s: &[u8], kind: Kind, at: usize) -> Separator
    ensures { result ≡ separator_at s.now kind at }
{
    let item = item::item_at(s, page::key_form(kind), at);
    match item {
        Some(key) => Separator {
            bound: Some(key.spot),
            next: key.next,
        },
        None => Separator {
            bound: None,
            next: 0,
        },
    }
}

// The child numbered `j`, whose recorded count and separator stand at the places given.
pub fn child_at(
    image: &[u8],
    kind: Kind,
    page: Inner,
    j: u32,
    counts: usize,
    keys: usize,
    hi: Option<Spot>,
) -> Child
    ensures { result ≡ child_of image.now kind page j counts keys hi }
{
    let s = page::cut(image, page.end);
    let position = content::child(s, page, j);
    let count = count_at(s, counts);
    let right = if j < page.n {
        separator_at(s, kind, keys)
    } else {
        Separator {
            bound: hi,
            next: keys,
        }
    };
    Child {
        position,
        count: count.value,
        hi: right.bound,
        counts: count.next,
        keys: right.next,
    }
}
