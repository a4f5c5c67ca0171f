// What a judged page holds: child, recorded count, key and value of a number, and a key among its
// keys. `s` is the image up to the page's end (`page::cut`), so that places in it are places in the image.
#![tactic(auto)]

ghost use Rattle.std.specs.Prelude.{◌≡◌, ◌+◌, get_or, slice_get, option_map};
ghost use Rattle.key.specs.Key.{key_of, compare_keys};
ghost use Rattle.tree.specs.Asking.{find_in};
ghost use Rattle.tree.specs.InnerPage.{lead};
ghost use Rattle.position.specs.Position.{of_bits};
ghost use Rattle.content.specs.Content.{keys_in, entries_in, positions_in, counts_in, pick, probe_at, picked_of};

use item::Form;
use key::Kind;
use page::{Inner, Leaf};
use position::Position;
use std::cmp::Ordering;
use text::Spot;

// A key that is not greater than a given one: whether it is equal, and the place after it.
#[derive(Clone, Copy, Debug, PartialEq, Eq)]
pub struct Probe {
    pub next: usize,
    pub same: bool,
}

// A child by its number, and what is left of the index under it.
#[derive(Clone, Copy, Debug, PartialEq, Eq)]
pub struct Picked {
    pub number: u32,
    pub rest: u64,
}

// An entry: its key and its value by place and length.
#[derive(Clone, Copy, Debug, PartialEq, Eq)]
pub struct Entry {
    pub key: Spot,
    pub value: Spot,
}

// The key at `i` against a given one; nothing where it is greater, or no key. In line, as the loops that
// ask it are, so that each kind has a loop of its own, which does not ask for the kind at each key.
#[inline(always)]
#[tactic(auto, using(crate::specs::KeyLaws::probe_bad))]
pub fn probe_key(s: &[u8], kind: Kind, i: usize, key: &[u8]) -> Option<Probe>
    ensures { result ≡ probe_at s.now kind i (key_of kind key.now) }
{
    let item = item::item_at(s, page::key_form(kind), i)?;
    let next = item.next;
    let o = key::compare(kind, &s[item.spot.at..next], key);
    match o {
        Ordering::Less => Some(Probe { next, same: false }),
        Ordering::Equal => Some(Probe { next, same: true }),
        Ordering::Greater => None,
    }
}

#[inline(always)]
fn lead_each(s: &[u8], kind: Kind, page: Inner, key: &[u8]) -> u32
    ensures { result ≡ lead compare_keys (key_of kind key.now) (keys_in s.now kind page.n page.keys) }
{
    let mut i = page.keys;
    for passed in 0..page.n {
        let Some(probe) = probe_key(s, kind, i, key) else {
            return passed;
        };
        i = probe.next;
    }
    page.n
}

// How many leading keys, up to the first greater one, are not greater than the key.
pub fn lead_keys(s: &[u8], kind: Kind, page: Inner, key: &[u8]) -> u32
    ensures { result ≡ lead compare_keys (key_of kind key.now) (keys_in s.now kind page.n page.keys) }
{
    match kind {
        Kind::Number => lead_each(s, Kind::Number, page, key),
        Kind::Text => lead_each(s, Kind::Text, page, key),
    }
}

// The position of child number `k`, 0 past the last.
pub fn child(s: &[u8], page: Inner, k: u32) -> Position
    ensures { result ≡ of_bits (get_or (positions_in s.now (page.n + 1) page.positions) k 0) }
{
    let empty = Position {
        bits: Position::EMPTY,
    };
    if page.n < k {
        return empty;
    }
    let Some(at) = page.positions.checked_add(8 * k as usize) else {
        return empty;
    };
    Position {
        bits: numeral::be64(s, at),
    }
}

// The recorded count of child number `k`, 0 past the last.
#[tactic(auto, unfolding(crate::specs::Content::counts_in))]
pub fn recorded(s: &[u8], page: Inner, k: u32) -> u64
    ensures { result ≡ get_or (counts_in s.now (page.n + 1) page.counts) k 0 }
{
    item::nth_count(s, page.n as u64 + 1, page.counts, k as u64)
}

// The child that has an index, by the recorded counts from left to right.
pub fn pick_child(s: &[u8], page: Inner, index: u64) -> Option<Picked>
    ensures { result ≡ picked_of (pick 0 index (counts_in s.now (page.n + 1) page.counts)) }
{
    let mut i = page.counts;
    let mut sum: u64 = 0;
    let mut rest = index;
    for number in 0..page.n as u64 + 1 {
        let count = numeral::read_var(s, i, item::COUNT_LIMIT)?;
        if item::COUNT_LIMIT - sum <= count.value {
            return None;
        }
        if rest < count.value {
            let number = number as u32;
            return Some(Picked { number, rest });
        }
        sum += count.value;
        rest -= count.value;
        i = count.next;
    }
    None
}

#[inline(always)]
fn find_each(s: &[u8], kind: Kind, leaf: Leaf, key: &[u8]) -> Option<Spot>
    ensures { result ≡ option_map (λ e. e.value) (find_in compare_keys (key_of kind key.now) (entries_in s.now kind leaf.n leaf.keys leaf.values)) }
{
    let mut i = leaf.keys;
    let mut j = leaf.values;
    for _ in 0..leaf.n {
        let probe = probe_key(s, kind, i, key)?;
        let value = item::item_at(s, Form::Bytes, j)?;
        if probe.same {
            return Some(value.spot);
        }
        i = probe.next;
        j = value.next;
    }
    None
}

// The value of the first equal key that comes before any greater one.
pub fn find_key(s: &[u8], kind: Kind, leaf: Leaf, key: &[u8]) -> Option<Spot>
    ensures { result ≡ option_map (λ e. e.value) (find_in compare_keys (key_of kind key.now) (entries_in s.now kind leaf.n leaf.keys leaf.values)) }
{
    match kind {
        Kind::Number => find_each(s, Kind::Number, leaf, key),
        Kind::Text => find_each(s, Kind::Text, leaf, key),
    }
}

// Entry number `k` of a leaf, from 0.
#[tactic(auto, using(crate::specs::NumberLaws::paired_nth), unfolding(crate::specs::Content::entries_in))]
pub fn nth_entry(s: &[u8], kind: Kind, leaf: Leaf, k: u64) -> Option<Entry>
    ensures { result ≡ option_map (λ e. e.1) (slice_get (entries_in s.now kind leaf.n leaf.keys leaf.values) k) }
{
    let n = leaf.n as u64;
    let key = item::nth_item(s, page::key_form(kind), n, leaf.keys, k)?;
    let value = item::nth_item(s, Form::Bytes, n, leaf.values, k)?;
    Some(Entry { key, value })
}
