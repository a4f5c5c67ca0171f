// Locating a chunk and a descent, which ask each other; `q` is how many questions may still be
// opened.
ghost use Rattle.std.specs.Prelude.{◌≤◌, ◌≡◌};
ghost use Rattle.key.specs.Key.{key_of};
ghost use Rattle.store.specs.Memory.{IsLocation, IsAnswer};

use super::Map;
use super::asked::Asked;
use super::settle::settle;
use key::Kind;
use memory::Recalled;
use metadata::{Advance, Answer, Location, advance_at, chunk_key, place_of};
use position::Position;
use refusal::Refusal;

impl<'a> Asked<'a> {
    // Where chunk `c` is. The newest is known, others may be remembered; any other is asked for in the
    // metadata, which is one more open question.
    #[cycle(descend_locate)]
    pub(crate) fn locate(&mut self, c: u32, q: u32) -> Result<Location, Refusal>
        requires { q ≤ 8 }
        ensures { self.new ≡ self.old × IsLocation self.old.image self.old.map.store q c result }
    {
        let store = self.map.store;
        let newest = store.newest;
        if c == newest.id {
            let place = place_of(newest);
            return Ok(Location { place, need: 0 });
        }
        if let Recalled::At { place, need } = self.recall(c) {
            if q < need {
                return Err(Refusal::NinthQuestion);
            }
            return Ok(Location { place, need });
        }
        if q == 0 {
            return Err(Refusal::NinthQuestion);
        }
        let key = chunk_key(c);
        let m = Map::metadata(store);
        let f = self.descend(m.id, m.kind, newest.root, key.text(), q - 1);
        settle(self.words, self.image, store.edition, c, f)
    }

    // A lookup of `key` in the map whose root is given: one page a turn, at most 16.
    #[cycle(descend_locate)]
    pub(crate) fn descend(
        &mut self,
        map: u32,
        kind: Kind,
        root: Position,
        key: &[u8],
        q: u32,
    ) -> Result<Answer, Refusal>
        requires { q ≤ 8 }
        ensures { self.new ≡ self.old × IsAnswer self.old.image self.old.map.store map kind root.bits (key_of kind key.now) q result }
    {
        if root.is_empty() {
            return Ok(Answer {
                value: None,
                need: 0,
            });
        }
        let mut p = root;
        let mut need: u32 = 0;
        for _ in 0..16u32 {
            if p.is_empty() {
                return Err(Refusal::Place);
            }
            let l = self.locate(p.chunk(), q);
            match advance_at(self.image, l, need, p, map, kind, key)? {
                Advance::To { position, need: n } => {
                    p = position;
                    need = n;
                }
                Advance::Done(answer) => return Ok(answer),
            }
        }
        Err(Refusal::TooDeep)
    }
}
