// A page of a map by its position, and a map's root, with what the call remembers.
ghost use Rattle.std.specs.Prelude.{◌≡◌};
ghost use Rattle.metadata.specs.Answers.{root_said};
ghost use Rattle.store.specs.Store.{asked_root, map_root};
ghost use Rattle.store.specs.Asking.{judged_by};

use super::asked::Asked;
use super::{Map, QUESTIONS};
use metadata::{root_by, root_key};
use opening::Store;
use page::Judged;
use position::Position;
use refusal::Refusal;

// The root from which maps are asked. Chunks are located by the newest chunk's.
pub(crate) fn asked_root(store: Store) -> Position
    ensures { result.bits ≡ asked_root store }
{
    store.newest.root
}

impl<'a> Asked<'a> {
    // The page at `p`, due for a map of a kind, as it is judged: child position 0, then location, then
    // the page's own rules.
    pub(crate) fn read_page(&mut self, p: Position) -> Result<Judged, Refusal>
        ensures { self.new ≡ self.old × (result ≡ judged_by self.old.image self.old.map.store self.old.map.id self.old.map.kind p.bits) }
    {
        if p.is_empty() {
            return Err(Refusal::Place);
        }
        let l = self.locate(p.chunk(), QUESTIONS)?;
        page::judge(self.image, l.place, p, self.map.id, self.map.kind)
    }

    // The root of the map that has an id; the metadata is map 0.
    pub(crate) fn root_at(&mut self, map: u32) -> Result<Position, Refusal>
        ensures { self.new ≡ self.old × (root_said result ≡ map_root self.old.image self.old.map.store map) }
    {
        let store = self.map.store;
        let root = asked_root(store);
        if map == 0 {
            return Ok(root);
        }
        let key = root_key(map);
        let m = Map::metadata(store);
        let f = self.descend(m.id, m.kind, root, key.text(), QUESTIONS);
        root_by(self.image, f)
    }
}
