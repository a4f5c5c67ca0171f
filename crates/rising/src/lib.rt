// The order of a page's keys: each against the one before it, the first and the last against the
// nearest separators above.
#![tactic(auto)]

ghost use Rattle.std.specs.Prelude.{◌≡◌, take};
ghost use Rattle.order.specs.Order.{below};
ghost use Rattle.key.specs.Key.{compare_keys};
ghost use Rattle.tree.specs.Examination.{above_bound, from_bound, below_bound};
ghost use Rattle.tree.specs.Rising.{keys_test, separators_test};
ghost use Rattle.item.specs.Step.{up_to};
ghost use Rattle.item.specs.Item.{items};
ghost use Rattle.page.specs.Judged.{key_form};
ghost use Rattle.content.specs.Content.{key_in, keys_in};
ghost use Rattle.rising.specs.Rising.{bound_key, risen_below, rise_of, first_of};

use key::Kind;
use page::{Inner, Leaf};
use text::Spot;

// The nearest separators above on each side, by their places in the image.
#[derive(Clone, Copy, Debug, PartialEq, Eq)]
pub struct Span {
    pub lo: Option<Spot>,
    pub hi: Option<Spot>,
}

// So many keys from a place on, and where their page ends.
#[derive(Clone, Copy, Debug, PartialEq, Eq)]
struct Keys {
    n: u32,
    at: usize,
    end: usize,
}

// Whether the key at one spot is below the key at another.
#[inline(always)]
fn key_below(image: &[u8], kind: Kind, p: Spot, q: Spot) -> bool
    ensures { result ≡ below compare_keys (key_in image.now kind p) (key_in image.now kind q) }
{
    key::compare(kind, p.bytes(image), q.bytes(image)).is_lt()
}

// Whether the key at a spot is above the bound.
#[inline(always)]
fn above_bound(image: &[u8], kind: Kind, bound: Option<Spot>, p: Spot) -> bool
    ensures { result ≡ above_bound compare_keys (bound_key image.now kind bound) (key_in image.now kind p) }
{
    match bound {
        None => true,
        Some(q) => key_below(image, kind, q, p),
    }
}

// Whether the key at a spot is not below the bound.
fn from_bound(image: &[u8], kind: Kind, bound: Option<Spot>, p: Spot) -> bool
    ensures { result ≡ from_bound compare_keys (bound_key image.now kind bound) (key_in image.now kind p) }
{
    match bound {
        None => true,
        Some(q) => !key_below(image, kind, p, q),
    }
}

// Whether the key at a spot is below the bound.
fn below_bound(image: &[u8], kind: Kind, bound: Option<Spot>, p: Spot) -> bool
    ensures { result ≡ below_bound compare_keys (bound_key image.now kind bound) (key_in image.now kind p) }
{
    match bound {
        None => true,
        Some(q) => key_below(image, kind, p, q),
    }
}

// The last of the keys, where they rise strictly: nothing where they do not, `Some(None)` of no key. In
// line, so that each kind below has a loop of its own, which does not ask for the kind at each key.
#[inline(always)]
fn rise_each(image: &[u8], kind: Kind, keys: Keys) -> Option<Option<Spot>>
    ensures { result ≡ rise_of image.now kind None (up_to (items (take keys.end image.now) (key_form kind)) keys.n keys.at) }
{
    let s = page::cut(image, keys.end);
    let form = page::key_form(kind);
    let mut i = keys.at;
    let mut last = None;
    for _ in 0..keys.n {
        let Some(item) = item::item_at(s, form, i) else {
            return Some(last);
        };
        if !above_bound(image, kind, last, item.spot) {
            return None;
        }
        last = Some(item.spot);
        i = item.next;
    }
    Some(last)
}

// The same, by the kind.
fn rise(image: &[u8], kind: Kind, keys: Keys) -> Option<Option<Spot>>
    ensures { result ≡ rise_of image.now kind None (up_to (items (take keys.end image.now) (key_form kind)) keys.n keys.at) }
{
    match kind {
        Kind::Number => rise_each(image, Kind::Number, keys),
        Kind::Text => rise_each(image, Kind::Text, keys),
    }
}

// Whether the keys rise strictly and the last of them is below the bound.
fn rise_below(image: &[u8], kind: Kind, keys: Keys, hi: Option<Spot>) -> bool
    ensures { result ≡ risen_below (bound_key image.now kind hi) (keys_in (take keys.end image.now) kind keys.n keys.at) }
{
    match rise(image, kind, keys) {
        None => false,
        Some(None) => true,
        Some(Some(last)) => below_bound(image, kind, hi, last),
    }
}

// The first of the keys.
fn first_key(image: &[u8], kind: Kind, keys: Keys) -> Option<Spot>
    ensures { result ≡ first_of (up_to (items (take keys.end image.now) (key_form kind)) keys.n keys.at) }
{
    if keys.n == 0 {
        return None;
    }
    let item = item::item_at(page::cut(image, keys.end), page::key_form(kind), keys.at)?;
    Some(item.spot)
}

// Whether an inner page's separators rise strictly and lie strictly between the bounds.
pub fn separators_lie(image: &[u8], kind: Kind, page: Inner, span: Span) -> bool
    ensures { result ≡ separators_test compare_keys (bound_key image.now kind span.lo) (bound_key image.now kind span.hi) (keys_in (take page.end image.now) kind page.n page.keys) }
{
    let keys = Keys {
        n: page.n,
        at: page.keys,
        end: page.end,
    };
    let Some(first) = first_key(image, kind, keys) else {
        return true;
    };
    above_bound(image, kind, span.lo, first) && rise_below(image, kind, keys, span.hi)
}

// Whether a leaf's keys rise strictly, not below the bound on the left, below the one on the right.
pub fn keys_lie(image: &[u8], kind: Kind, leaf: Leaf, span: Span) -> bool
    ensures { result ≡ keys_test compare_keys (bound_key image.now kind span.lo) (bound_key image.now kind span.hi) (keys_in (take leaf.end image.now) kind leaf.n leaf.keys) }
{
    let keys = Keys {
        n: leaf.n,
        at: leaf.keys,
        end: leaf.end,
    };
    let Some(first) = first_key(image, kind, keys) else {
        return true;
    };
    from_bound(image, kind, span.lo, first) && rise_below(image, kind, keys, span.hi)
}
