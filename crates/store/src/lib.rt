// A store that is open: where chunks are, a map's id and root, and what is asked of a map. Locating a
// chunk asks the metadata, whose pages stand in chunks that may have to be located first.
#![tactic(auto)]

mod ask;
mod asked;
mod down;
mod examining;
mod fetch;
mod locate;
mod read;
mod room;
mod settle;
mod walking;

ghost use Rattle.std.specs.Prelude.{◌≡◌};
ghost use Rattle.metadata.specs.Answers.{root_said};
ghost use Rattle.store.specs.Store.{metadata_map, chunk_at, named_map, map_root};

pub use ask::{count, index, lookup};
use asked::Asked;
pub use examining::examine;
use key::Kind;
use metadata::{NAME, id_by, located_by, name_key};
use opening::Store;
use page::Place;
use position::Position;
use read::asked_root;
use refusal::Refusal;
use room::MANY;
pub use walking::advance;

// A map that is asked: by its store, its id and its kind.
#[derive(Clone, Copy, Debug, PartialEq, Eq)]
pub struct Map {
    pub store: Store,
    pub id: u32,
    pub kind: Kind,
}

impl Map {
    // "Metadata is map 0, kind 1".
    pub(crate) fn metadata(store: Store) -> Map
        ensures { result ≡ metadata_map store }
    {
        Map {
            store,
            id: 0,
            kind: Kind::Text,
        }
    }
}

// How many questions may be open at once.
pub const QUESTIONS: u32 = 8;

// Where chunk `chunk` is.
pub fn chunk_place(image: &[u8], store: Store, chunk: u32) -> Result<Place, Refusal>
    ensures { result ≡ chunk_at image.now store 8 chunk }
{
    let mut memory = [0u64; MANY];
    let mut asked = Asked::new(image, Map::metadata(store), &mut memory);
    located_by(asked.locate(chunk, QUESTIONS))
}

// The id of the map that has a name.
pub fn map_id(image: &[u8], store: Store, name: &[u8]) -> Result<u32, Refusal>
    ensures { result ≡ named_map image.now store name.now }
{
    if NAME < name.len() {
        return Err(Refusal::Argument);
    }
    let key = name_key(name);
    let m = Map::metadata(store);
    let root = asked_root(store);
    let mut memory = [0u64; MANY];
    let mut asked = Asked::new(image, m, &mut memory);
    let f = asked.descend(m.id, m.kind, root, key.text(), QUESTIONS);
    id_by(image, f)
}

// The root of the map that has an id; the metadata is map 0.
pub fn map_root(image: &[u8], store: Store, map: u32) -> Result<Position, Refusal>
    ensures { root_said result ≡ map_root image.now store map }
{
    let mut memory = [0u64; MANY];
    let mut asked = Asked::new(image, Map::metadata(store), &mut memory);
    asked.root_at(map)
}
