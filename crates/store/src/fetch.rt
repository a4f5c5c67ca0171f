// An entry by its index: at each inner page the recorded counts say which child it is under.
ghost use Rattle.std.specs.Prelude.{◌≡◌};
ghost use Rattle.tree.specs.Asking.{map_index};
ghost use Rattle.store.specs.Store.{pages_of};
ghost use Rattle.store.specs.Asking.{turn_of, fetched_of};

use super::asked::Asked;
use content::Entry;
use key::Kind;
use page::Judged;
use position::Position;
use refusal::Refusal;

// One page: the child to go on at with what is left of the index, or the entry.
#[derive(Clone, Copy, Debug, PartialEq, Eq)]
pub enum Turn {
    Child { position: Position, rest: u64 },
    Done(Entry),
}

fn turn_at(image: &[u8], kind: Kind, page: Judged, index: u64) -> Result<Turn, Refusal>
    ensures { result ≡ turn_of image.now kind index (Ok page) }
{
    match page {
        Judged::Leaf(leaf) => {
            let s = page::cut(image, leaf.end);
            match content::nth_entry(s, kind, leaf, index) {
                Some(entry) => Ok(Turn::Done(entry)),
                None => Err(Refusal::Index),
            }
        }
        Judged::Inner(inner) => {
            let s = page::cut(image, inner.end);
            match content::pick_child(s, inner, index) {
                Some(picked) => Ok(Turn::Child {
                    position: content::child(s, inner, picked.number),
                    rest: picked.rest,
                }),
                None => Err(Refusal::Index),
            }
        }
    }
}

impl<'a> Asked<'a> {
    // The entry numbered `index` of the map whose root is given: one page a turn, at most 16.
    pub(crate) fn fetch_from(&mut self, root: Position, index: u64) -> Result<Entry, Refusal>
        ensures { result ≡ fetched_of (map_index (pages_of self.old.image self.old.map) index root.bits) }
    {
        if root.is_empty() {
            return Err(Refusal::Index);
        }
        let mut p = root;
        let mut left = index;
        for _ in 0..16u32 {
            let page = self.read_page(p)?;
            match turn_at(self.image, self.map.kind, page, left)? {
                Turn::Child { position, rest } => {
                    p = position;
                    left = rest;
                }
                Turn::Done(entry) => return Ok(entry),
            }
        }
        Err(Refusal::TooDeep)
    }
}
