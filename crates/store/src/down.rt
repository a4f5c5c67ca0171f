// The walk's two ways down: by the numbers of its state, and to the left.
ghost use Rattle.std.specs.Prelude.{◌≤◌, ◌≡◌, length, take};
ghost use Rattle.store.specs.WalkWays.{EndsDown, EndsLeft};

use super::asked::Asked;
use cursor::{After, Down, Left, Leftmost, Walk, after_at, first_at, over_at};
use position::Position;
use refusal::Refusal;

impl<'a> Asked<'a> {
    // The way down from the root by the state's numbers: the entry after the one that they lead to,
    // or the child under which it is the leftmost.
    pub(crate) fn down_by(&mut self, root: Position, w: Walk) -> Result<Down, Refusal>
        requires { (1 ≤ w.depth) × (w.depth ≤ 16) × (w.depth ≤ length w.places) × (1 ≤ root.bits) }
        ensures { self.new ≡ self.old × EndsDown self.old.image self.old.map.store self.old.map.id self.old.map.kind (take w.depth w.places) root.bits result }
    {
        let mut p = root;
        let mut left = None;
        for level in 0..w.depth {
            let i = w.places[level as usize];
            let page = self.read_page(p);
            match after_at(self.image, self.map.kind, page, i, level + 1 == w.depth)? {
                After::Entry(entry) => {
                    return Ok(Down::Entry {
                        level,
                        number: i + 1,
                        entry,
                    });
                }
                After::Over => return Ok(over_at(left)),
                After::Last(position) => p = position,
                After::Child { position, after } => {
                    p = position;
                    left = Some(Left {
                        level,
                        number: i + 1,
                        position: after,
                    });
                }
            }
        }
        Ok(Down::Over)
    }

    // The leftmost entry under the page at `p`, which `level` numbers lead to. Only the root may be an
    // empty leaf.
    pub(crate) fn leftmost_from(
        &mut self,
        p: Position,
        level: u32,
    ) -> Result<Option<Leftmost>, Refusal>
        requires { level ≤ 16 }
        ensures { self.new ≡ self.old × EndsLeft self.old.image self.old.map.store self.old.map.id self.old.map.kind level p.bits result }
    {
        let mut q = p;
        for depth in level..16 {
            let page = self.read_page(q);
            match first_at(self.image, self.map.kind, page)? {
                After::Entry(entry) => {
                    let depth = depth + 1;
                    return Ok(Some(Leftmost { depth, entry }));
                }
                After::Over if depth == 0 => return Ok(None),
                After::Over => return Err(Refusal::Unsound),
                After::Last(position) | After::Child { position, .. } => q = position,
            }
        }
        Err(Refusal::TooDeep)
    }
}
