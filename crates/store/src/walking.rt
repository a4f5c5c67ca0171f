// One step of the walk in a store that is open.
ghost use Rattle.std.specs.Prelude.{◌≡◌};
ghost use Rattle.cursor.specs.Walk.{numbers, moved_by, settled};
ghost use Rattle.store.specs.Store.{pages_of};
ghost use Rattle.store.specs.Walk.{step_in};

use super::Map;
use super::asked::Asked;
use super::room::with_words;
use cursor::{Down, Stepped, Walk, is_formed, left_step, numbered};
use key::Kind;
use opening::Store;
use position::Position;
use refusal::Refusal;

impl<'a> Asked<'a> {
    // The step from a state in the map whose root is given.
    fn advance_from(&mut self, root: Position, w: Walk) -> Stepped
        ensures { result ≡ settled w (moved_by (pages_of self.old.image self.old.map) root.bits (numbers w)) }
    {
        if !is_formed(w) {
            return w.refused(Refusal::Unsound);
        }
        if root.is_empty() {
            return w.in_empty();
        }
        if w.depth == 0 {
            let first = self.leftmost_from(root, 0);
            return left_step(w, 0, 0, first);
        }
        match self.down_by(root, w) {
            Err(r) => w.refused(r),
            Ok(Down::Over) => w.done(),
            Ok(
                Down::Entry {
                    level,
                    number,
                    entry,
                },
            ) => Stepped {
                walk: numbered(w.places, level, number, w.depth),
                got: Ok(Some(entry)),
            },
            Ok(Down::Left(left)) => {
                let first = self.leftmost_from(left.position, left.level + 1);
                left_step(w, left.level, left.number, first)
            }
        }
    }

    fn advance(&mut self, w: Walk) -> Stepped
        ensures { result ≡ step_in self.old.image self.old.map.store self.old.map.id self.old.map.kind w }
    {
        let m = self.map;
        match self.root_at(m.id) {
            Err(r) => w.refused(r),
            Ok(root) => self.advance_from(root, w),
        }
    }
}

// One step of the walk of a map, by its id and kind.
pub fn advance(image: &[u8], store: Store, map: u32, kind: Kind, w: Walk) -> Stepped
    ensures { result ≡ step_in image.now store map kind w }
{
    let m = Map {
        store,
        id: map,
        kind,
    };
    with_words(image, |words| Asked::new(image, m, words).advance(w))
}
