// The items of a page: words of 8 bytes, text keys, values and recorded counts, read one at a time
// from a cursor. `s` is the image up to the page's end.
#![tactic(auto)]

ghost use Rattle.std.specs.Prelude.{◌≡◌, get_or, slice_get};
ghost use Rattle.item.specs.Step.{up_to};
ghost use Rattle.item.specs.Item.{item_at, items, count_at, skipped, counted};

use key::{Kind, Sized};
use text::Spot;

// How an item is written: 8 bytes; a text key; a length and bytes.
#[derive(Clone, Copy, Debug, PartialEq, Eq)]
pub enum Form {
    Word,
    Text,
    Bytes,
}

// The sum of some recorded counts, and the place after them.
#[derive(Clone, Copy, Debug, PartialEq, Eq)]
pub struct Counted {
    pub total: u64,
    pub next: usize,
}

// A value's length is below this.
const VALUE_LIMIT: u64 = 65536;

// Recorded counts, and their sum, are below this: 2^48.
pub const COUNT_LIMIT: u64 = 281474976710656;

// The item of a form at a place.
#[inline(always)]
pub fn item_at(s: &[u8], form: Form, at: usize) -> Option<Sized>
    ensures { result ≡ item_at s.now form at }
{
    match form {
        Form::Word => key::key_at(s, Kind::Number, at),
        Form::Text => key::key_at(s, Kind::Text, at),
        Form::Bytes => key::sized_at(s, at, VALUE_LIMIT),
    }
}

// Words need not be gone through one by one.
fn skip_words(s: &[u8], n: u64, at: usize) -> Option<usize>
    ensures { result ≡ skipped s.now Form.Word n at }
{
    if n == 0 {
        return Some(at);
    }
    let room = s.len().checked_sub(at)?;
    if room as u64 / 8 < n {
        return None;
    }
    Some(at + 8 * n as usize)
}

// Other items have lengths of their own.
fn skip_each(s: &[u8], form: Form, n: u64, at: usize) -> Option<usize>
    ensures { result ≡ skipped s.now form n at }
{
    let mut i = at;
    for _ in 0..n {
        i = item_at(s, form, i)?.next;
    }
    Some(i)
}

// The place after `n` items of a form.
pub fn skip_items(s: &[u8], form: Form, n: u64, at: usize) -> Option<usize>
    ensures { result ≡ skipped s.now form n at }
{
    match form {
        Form::Word => skip_words(s, n, at),
        Form::Text => skip_each(s, Form::Text, n, at),
        Form::Bytes => skip_each(s, Form::Bytes, n, at),
    }
}

// Item number `k` of `n`, from 0.
pub fn nth_item(s: &[u8], form: Form, n: u64, at: usize, k: u64) -> Option<Spot>
    ensures { result ≡ slice_get (up_to (items s.now form) n at) k }
{
    if n <= k {
        return None;
    }
    let i = skip_items(s, form, k, at)?;
    let item = item_at(s, form, i)?;
    Some(item.spot)
}

// The sum of `n` recorded counts, each of which keeps it below 2^48, and the place after them.
pub fn sum_counts(s: &[u8], n: u64, at: usize) -> Option<Counted>
    ensures { result ≡ counted s.now n at }
{
    let mut next = at;
    let mut total: u64 = 0;
    for _ in 0..n {
        let count = numeral::read_var(s, next, COUNT_LIMIT)?;
        if COUNT_LIMIT - total <= count.value {
            return None;
        }
        total += count.value;
        next = count.next;
    }
    Some(Counted { total, next })
}

// Recorded count number `k` of `n`, from 0; 0 where there is none.
pub fn nth_count(s: &[u8], n: u64, at: usize, k: u64) -> u64
    ensures { result ≡ get_or (up_to (count_at s.now) n (at, 0)) k 0 }
{
    if n <= k {
        return 0;
    }
    let Some(before) = sum_counts(s, k, at) else {
        return 0;
    };
    let Some(count) = numeral::read_var(s, before.next, COUNT_LIMIT) else {
        return 0;
    };
    if COUNT_LIMIT - count.value <= before.total {
        return 0;
    }
    count.value
}
