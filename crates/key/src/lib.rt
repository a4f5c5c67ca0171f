// Keys of the two kinds: reading one at a place, judging one that is given, comparing two.
#![tactic(auto)]

mod sized;
mod texts;

ghost use Rattle.std.specs.Prelude.{◌≡◌};
ghost use Rattle.std.specs.Int.{w64};
ghost use Rattle.std.proofs.Common.{to_z};
ghost use Rattle.order.specs.Order.{compare_int, compare_nat};
ghost use Rattle.key.specs.Key.{key_at, well_formed, key_of, compare_keys};
ghost use Rattle.key.specs.Raised.{raised};

use numeral::be64;
pub use sized::{Sized, sized_at};
use std::cmp::Ordering;
use text::Spot;

#[derive(Clone, Copy, Debug, PartialEq, Eq)]
pub enum Kind {
    Number,
    Text,
}

// The longest text key, as a limit: its length is below this.
pub const TEXT_LIMIT: u64 = 1025;

// A number key at `at`: 8 bytes. With two tests, of which the compiler learns that the bytes stand there; a
// sum that is checked costs an examination a sixth.
#[inline(always)]
pub fn number_at(s: &[u8], at: usize) -> Option<Sized>
    ensures { result ≡ key_at Kind.Number s.now at }
{
    if s.len() < 8 {
        return None;
    }
    if s.len() - 8 < at {
        return None;
    }
    Some(Sized {
        spot: Spot { at, len: 8 },
        next: at + 8,
    })
}

// A text key at `at`: its length, and bytes 32 to 126.
#[inline(always)]
fn text_at(s: &[u8], at: usize) -> Option<Sized>
    ensures { result ≡ key_at Kind.Text s.now at }
{
    let key = sized_at(s, at, TEXT_LIMIT)?;
    if !text::all_printable(&s[key.spot.at..key.next]) {
        return None;
    }
    Some(key)
}

// The key of a kind at `at`: where its own bytes stand, and the place after it.
#[inline(always)]
pub fn key_at(s: &[u8], kind: Kind, at: usize) -> Option<Sized>
    ensures { result ≡ key_at kind s.now at }
{
    match kind {
        Kind::Number => number_at(s, at),
        Kind::Text => text_at(s, at),
    }
}

// Whether a key that is given as bytes is one of its kind.
pub fn well_formed(kind: Kind, key: &[u8]) -> bool
    ensures { result ≡ well_formed kind key.now }
{
    match kind {
        Kind::Number => key.len() == 8,
        Kind::Text => key.len() <= 1024 && text::all_printable(key),
    }
}

// Two number keys by their 64 bits, which are those of signed numbers; raised by 2^63 they are in the
// order of these.
#[inline(always)]
pub fn compare_numbers(a: u64, b: u64) -> Ordering
    ensures signed { result ≡ compare_int (to_z w64 a) (to_z w64 b) }
    ensures raised { result ≡ compare_nat (raised a) (raised b) }
{
    a.cast_signed().cmp(&b.cast_signed())
}

// How two keys of a kind, given as their bytes, compare.
#[inline(always)]
pub fn compare(kind: Kind, a: &[u8], b: &[u8]) -> Ordering
    ensures { result ≡ compare_keys (key_of kind a.now) (key_of kind b.now) }
{
    match kind {
        Kind::Number => compare_numbers(be64(a, 0), be64(b, 0)),
        Kind::Text => texts::compare_texts(a, b),
    }
}
