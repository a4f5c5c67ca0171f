// An entry as index gives it: a number key by its number, a text key by its place and length.
ghost use Rattle.std.specs.Prelude.{◌≡◌};
ghost use Rattle.map.specs.Map.{item_of, index_of, item_at};

use super::asked;
use content::Entry;
use key::Kind;
use opening::View;
use refusal::Refusal;
use text::Spot;

#[derive(Clone, Copy, Debug, PartialEq, Eq)]
pub enum Key {
    Number(i64),
    Text(Spot),
}

#[derive(Clone, Copy, Debug, PartialEq, Eq)]
pub struct Item {
    pub key: Key,
    pub value: Spot,
}

// The entry whose key and value stand at the places given.
pub fn item_at(image: &[u8], kind: Kind, entry: Entry) -> Item
    ensures { result ≡ item_at image.now kind entry }
{
    let value = entry.value;
    match kind {
        Kind::Number => {
            let bits = numeral::be64(entry.key.bytes(image), 0);
            Item {
                key: Key::Number(bits.cast_signed()),
                value,
            }
        }
        Kind::Text => Item {
            key: Key::Text(entry.key),
            value,
        },
    }
}

// The entry numbered `index`, from 0.
pub fn index(image: &[u8], view: View, map: u64, kind: u64, index: u64) -> Result<Item, Refusal>
    ensures { result ≡ item_of (index_of image.now view map kind index) }
{
    let (id, k) = asked(map, kind)?;
    let s = viewing::open(image, view)?;
    let entry = store::index(image, s, id, k, index)?;
    Ok(item_at(image, k, entry))
}
