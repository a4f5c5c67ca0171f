// Lookup, index and count of a map, by its id and kind, in a store that is open.
ghost use Rattle.std.specs.Prelude.{◌≡◌};
ghost use Rattle.key.specs.Key.{key_of};
ghost use Rattle.tree.specs.Asking.{map_count};
ghost use Rattle.store.specs.Store.{pages_of};
ghost use Rattle.store.specs.Asking.{lookup_in, index_in, count_in, value_of, fetched_of};

use super::asked::Asked;
use super::room::{MANY, with_words};
use super::{Map, QUESTIONS};
use content::Entry;
use key::Kind;
use metadata::value_by;
use opening::Store;
use page::Judged;
use position::Position;
use refusal::Refusal;
use text::Spot;

impl<'a> Asked<'a> {
    fn lookup(&mut self, key: &[u8]) -> Result<Option<Spot>, Refusal>
        ensures { result ≡ value_of (lookup_in self.old.image self.old.map.store self.old.map.id self.old.map.kind (key_of self.old.map.kind key.now)) }
    {
        let m = self.map;
        let root = self.root_at(m.id)?;
        value_by(self.descend(m.id, m.kind, root, key, QUESTIONS))
    }

    fn index(&mut self, index: u64) -> Result<Entry, Refusal>
        ensures { result ≡ fetched_of (index_in self.old.image self.old.map.store self.old.map.id self.old.map.kind index) }
    {
        let m = self.map;
        let root = self.root_at(m.id)?;
        self.fetch_from(root, index)
    }

    // How many entries the page at the root has or records.
    fn count_from(&mut self, root: Position) -> Result<u64, Refusal>
        ensures { result ≡ map_count (pages_of self.old.image self.old.map) root.bits }
    {
        if root.is_empty() {
            return Ok(0);
        }
        match self.read_page(root)? {
            Judged::Leaf(leaf) => Ok(leaf.n as u64),
            Judged::Inner(inner) => Ok(inner.total),
        }
    }

    // How many entries the map has, by its root.
    fn count(&mut self) -> Result<u64, Refusal>
        ensures { result ≡ count_in self.old.image self.old.map.store self.old.map.id self.old.map.kind }
    {
        let m = self.map;
        let root = self.root_at(m.id)?;
        self.count_from(root)
    }
}

// The value of `key` in the map, if it has one.
pub fn lookup(
    image: &[u8],
    store: Store,
    map: u32,
    kind: Kind,
    key: &[u8],
) -> Result<Option<Spot>, Refusal>
    ensures { result ≡ value_of (lookup_in image.now store map kind (key_of kind key.now)) }
{
    let m = Map {
        store,
        id: map,
        kind,
    };
    with_words(image, |words| Asked::new(image, m, words).lookup(key))
}

// The entry numbered `index` of the map, from 0.
pub fn index(image: &[u8], store: Store, map: u32, kind: Kind, index: u64) -> Result<Entry, Refusal>
    ensures { result ≡ fetched_of (index_in image.now store map kind index) }
{
    let m = Map {
        store,
        id: map,
        kind,
    };
    with_words(image, |words| Asked::new(image, m, words).index(index))
}

// How many entries the map has, by its root.
pub fn count(image: &[u8], store: Store, map: u32, kind: Kind) -> Result<u64, Refusal>
    ensures { result ≡ count_in image.now store map kind }
{
    let m = Map {
        store,
        id: map,
        kind,
    };
    let mut memory = [0u64; MANY];
    Asked::new(image, m, &mut memory).count()
}
