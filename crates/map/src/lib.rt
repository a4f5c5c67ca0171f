// The public calls of a map, by its id and kind: lookup, index, count and copy; and a map's id by its
// name. Arguments are judged first, then the image is opened, then the map is asked.
// The map and its kind stay two numbers, as the C interface hands them on: which are no map or no kind
// is refused here, with refusal 1.
#![tactic(auto)]

mod copying;
mod entry;

ghost use Rattle.std.specs.Prelude.{◌≡◌};
ghost use Rattle.store.specs.Asking.{value_of};
ghost use Rattle.map.specs.Map.{asked_map, well_named, lookup_of, count_of, named_of};

pub use copying::copy;
pub use entry::{Item, Key, index, item_at};
use key::Kind;
use opening::View;
use refusal::Refusal;
use text::Spot;

// The largest id of a map.
pub const LARGEST: u64 = 2147483647;

// The map with an id and a kind as a caller gives them.
pub fn asked(map: u64, kind: u64) -> Result<(u32, Kind), Refusal>
    ensures { result ≡ asked_map map kind }
{
    if 1 < kind {
        return Err(Refusal::Argument);
    }
    if LARGEST < map {
        return Err(Refusal::Argument);
    }
    let id = map as u32;
    if kind == 1 {
        return Ok((id, Kind::Text));
    }
    if id == 0 {
        return Err(Refusal::Argument);
    }
    Ok((id, Kind::Number))
}

// The value of `key`, if the map has it, by its place in the image and its length.
pub fn lookup(
    image: &[u8],
    view: View,
    map: u64,
    kind: u64,
    key: &[u8],
) -> Result<Option<Spot>, Refusal>
    ensures { result ≡ value_of (lookup_of image.now view map kind key.now) }
{
    let (id, k) = asked(map, kind)?;
    if !key::well_formed(k, key) {
        return Err(Refusal::Argument);
    }
    let s = viewing::open(image, view)?;
    store::lookup(image, s, id, k, key)
}

// How many entries the map has, by its root.
pub fn count(image: &[u8], view: View, map: u64, kind: u64) -> Result<u64, Refusal>
    ensures { result ≡ count_of image.now view map kind }
{
    let (id, k) = asked(map, kind)?;
    let s = viewing::open(image, view)?;
    store::count(image, s, id, k)
}

// Whether a name is 1 to 1,000 bytes of 32 to 126.
fn well_named(name: &[u8]) -> bool
    ensures { result ≡ well_named name.now }
{
    if name.len() < 1 {
        return false;
    }
    if 1000 < name.len() {
        return false;
    }
    text::all_printable(name)
}

// The id of the map that has a name.
pub fn named(image: &[u8], view: View, name: &[u8]) -> Result<u32, Refusal>
    ensures { result ≡ named_of image.now view name.now }
{
    if !well_named(name) {
        return Err(Refusal::Argument);
    }
    let s = viewing::open(image, view)?;
    store::map_id(image, s, name)
}
