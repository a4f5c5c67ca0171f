// The rules of one page, in their order.
//
//   OFFSET  SIZE  FIELD
//   0       4     length
//   4       2     check value
//   6       var   map id
//   ..      var   key count n
//   ..      1     type: 0 leaf, 1 inner
//   ..      ..    leaf: n keys, n values; inner: n+1 positions, n+1 recorded counts, n keys
#![tactic(auto)]

ghost use Rattle.std.specs.Prelude.{◌≡◌, take};
ghost use Rattle.page.specs.Judged.{begins, length_fits, key_form, whole, leaf_at, inner_at, body_at};
ghost use Rattle.page.specs.Judged.{fields_at, head_at, judged_at};

use item::Form;
use key::Kind;
use position::Position;
use refusal::Refusal;

// Where a page's chunk stands: its first block, its length in blocks, and the byte of the chunk at
// which its pages may begin.
#[derive(Clone, Copy, Debug, PartialEq, Eq)]
pub struct Place {
    pub block: u32,
    pub len: u32,
    pub first: u32,
}

// A page's head: how many keys it has, where its items begin and where the page ends.
#[derive(Clone, Copy, Debug, PartialEq, Eq)]
struct Head {
    n: u32,
    at: usize,
    end: usize,
}

// A leaf by the places of its parts.
#[derive(Clone, Copy, Debug, PartialEq, Eq)]
pub struct Leaf {
    pub n: u32,
    pub keys: usize,
    pub values: usize,
    pub end: usize,
}

// An inner page by the places of its parts, with the sum of its recorded counts.
#[derive(Clone, Copy, Debug, PartialEq, Eq)]
pub struct Inner {
    pub n: u32,
    pub positions: usize,
    pub counts: usize,
    pub keys: usize,
    pub end: usize,
    pub total: u64,
}

#[derive(Clone, Copy, Debug, PartialEq, Eq)]
pub enum Judged {
    Leaf(Leaf),
    Inner(Inner),
}

// Map ids and key counts are below this: 2^31.
const COUNT_OF_KEYS: u64 = 2147483648;

// The image up to `end`.
pub fn cut(image: &[u8], end: usize) -> &[u8]
    ensures { result.now ≡ take end image.now }
{
    &image[..end.min(image.len())]
}

#[tactic(auto, unfolding(crate::specs::Judged::begins))]
fn page_begins(chunk: Place, offset: u32) -> bool
    ensures { result ≡ begins chunk offset }
{
    let start = chunk.block as usize * 4096;
    let end = (chunk.block as usize + chunk.len as usize) * 4096;
    if end < 128 {
        return false;
    }
    if offset < chunk.first {
        return false;
    }
    start + offset as usize + 9 <= end - 128
}

// `room` is what lies between the page's first byte and the footer.
#[tactic(auto, unfolding(crate::specs::Judged::length_fits))]
fn length_fits(code: u32, n: u32, room: usize) -> bool
    ensures { result ≡ length_fits code n room }
{
    if n < 9 {
        return false;
    }
    position::holds_length(code, n) && n as usize <= room
}

// How a kind's keys are written.
#[tactic(auto, unfolding(crate::specs::Judged::key_form))]
#[inline(always)]
pub fn key_form(kind: Kind) -> Form
    ensures { result ≡ key_form kind }
{
    match kind {
        Kind::Number => Form::Word,
        Kind::Text => Form::Text,
    }
}

// The page, if nothing is left over after its end.
fn whole(s: &[u8], end: usize, page: Judged) -> Result<Judged, Refusal>
    ensures { result ≡ whole s.now end page }
{
    if end == s.len() {
        Ok(page)
    } else {
        Err(Refusal::Contents)
    }
}

#[tactic(auto, unfolding(crate::specs::Judged::leaf_at))]
fn leaf_at(s: &[u8], form: Form, n: u32, at: usize) -> Result<Judged, Refusal>
    ensures { result ≡ leaf_at s.now form n at }
{
    let values = item::skip_items(s, form, n as u64, at).ok_or(Refusal::Contents)?;
    let end = item::skip_items(s, Form::Bytes, n as u64, values).ok_or(Refusal::Contents)?;
    let page = Leaf {
        n,
        keys: at,
        values,
        end,
    };
    whole(s, end, Judged::Leaf(page))
}

#[tactic(auto, unfolding(crate::specs::Judged::inner_at))]
fn inner_at(s: &[u8], form: Form, n: u32, at: usize) -> Result<Judged, Refusal>
    ensures { result ≡ inner_at s.now form n at }
{
    let counts = item::skip_items(s, Form::Word, n as u64 + 1, at).ok_or(Refusal::Contents)?;
    let sum = item::sum_counts(s, n as u64 + 1, counts).ok_or(Refusal::Contents)?;
    let end = item::skip_items(s, form, n as u64, sum.next).ok_or(Refusal::Contents)?;
    let page = Inner {
        n,
        positions: at,
        counts,
        keys: sum.next,
        end,
        total: sum.total,
    };
    whole(s, end, Judged::Inner(page))
}

// What follows the type byte.
fn body(s: &[u8], page_type: u32, kind: Kind, n: u32, at: usize) -> Result<Judged, Refusal>
    ensures { result ≡ body_at s.now page_type (key_form kind) n at }
{
    if page_type == 0 {
        leaf_at(s, key_form(kind), n, at)
    } else {
        inner_at(s, key_form(kind), n, at)
    }
}

// The fields from the map id to the type byte; `s` is the image up to the page's end.
#[tactic(auto, unfolding(crate::specs::Judged::fields_at))]
fn fields(s: &[u8], at: usize, page_type: u32, map: u32) -> Result<Head, Refusal>
    ensures { result ≡ fields_at s.now at page_type map }
{
    let id = numeral::read_var(s, at, COUNT_OF_KEYS).ok_or(Refusal::Contents)?;
    if id.value != map as u64 {
        return Err(Refusal::MapOrType);
    }
    let n = numeral::read_var(s, id.next, COUNT_OF_KEYS).ok_or(Refusal::Contents)?;
    if s.len() <= n.next {
        return Err(Refusal::Contents);
    }
    if s[n.next] as u32 != page_type {
        return Err(Refusal::MapOrType);
    }
    Ok(Head {
        n: n.value as u32,
        at: n.next + 1,
        end: s.len(),
    })
}

// The head of the page at a position in its chunk, due for a map.
#[tactic(auto, using(crate::specs::JudgedLaws::begins_room), unfolding(crate::specs::Judged::head_at))]
fn head_at(image: &[u8], chunk: Place, position: Position, map: u32) -> Result<Head, Refusal>
    ensures { result ≡ head_at image.now chunk position.bits map }
{
    let offset = position.offset();
    if !page_begins(chunk, offset) {
        return Err(Refusal::Place);
    }
    let at = chunk.block as usize * 4096 + offset as usize;
    let footer = (chunk.block as usize + chunk.len as usize) * 4096 - 128;
    let n = numeral::be32(image, at);
    if !length_fits(position.code(), n, footer - at) {
        return Err(Refusal::Place);
    }
    if numeral::be16(image, at + 4) != position::check_value(position.chunk(), offset, n) {
        return Err(Refusal::CheckValue);
    }
    fields(
        cut(image, at + n as usize),
        at + 6,
        position.page_type(),
        map,
    )
}

// The page at a position in its chunk, due for a map of a kind.
#[tactic(auto, unfolding(crate::specs::Judged::judged_at))]
pub fn judge(
    image: &[u8],
    chunk: Place,
    position: Position,
    map: u32,
    kind: Kind,
) -> Result<Judged, Refusal>
    ensures { result ≡ judged_at image.now chunk position.bits map kind }
{
    let head = head_at(image, chunk, position, map)?;
    body(
        cut(image, head.end),
        position.page_type(),
        kind,
        head.n,
        head.at,
    )
}
