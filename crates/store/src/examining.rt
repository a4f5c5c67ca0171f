// The examination of a map: depth first, a page's own rules before its keys, its separators before its
// children, a child before its recorded count.
ghost use Rattle.std.specs.Prelude.{◌≤◌, ◌<◌, ◌≡◌};
ghost use Rattle.store.specs.Examining.{tallied, over_children, examine_in, examined_under, examined_children, WholePage, Fits};

use super::Map;
use super::asked::Asked;
use super::room::with_words;
use key::Kind;
use opening::Store;
use page::Inner;
use position::Position;
use refusal::Refusal;
use rising::Span;
use soundness::{Part, child_at, part_at};
use tree::Report;

// The children examined so far, and one more.
fn tally(r: Report, count: u64, x: Result<Report, Refusal>) -> Result<Report, Refusal>
    requires { Fits r x }
    ensures { result ≡ tallied r count x }
{
    let a = x?;
    if a.entries != count {
        return Err(Refusal::Unsound);
    }
    Ok(Report {
        entries: r.entries + a.entries,
        pages: r.pages + a.pages,
        depth: r.depth.max(a.depth),
    })
}

// An inner page, from its children.
fn over_children(x: Result<Report, Refusal>) -> Result<Report, Refusal>
    requires { Fits (record { entries = 0; pages = 1; depth = 1 }) x }
    ensures { result ≡ over_children x }
{
    let a = x?;
    Ok(Report {
        entries: a.entries,
        pages: a.pages + 1,
        depth: a.depth + 1,
    })
}

impl<'a> Asked<'a> {
    // The page at `p` and what is under it, with `levels` levels of pages left, the page's own counted.
    #[cycle(examine_children_examine_page)]
    fn examine_page(
        &mut self,
        p: Position,
        span: Span,
        top: bool,
        levels: u32,
    ) -> Result<Report, Refusal>
        requires { levels ≤ 16 }
        ensures { self.new ≡ self.old × (result ≡ examined_under self.old.image self.old.map levels top span p.bits) }
    {
        if levels == 0 {
            return Err(Refusal::TooDeep);
        }
        let page = self.read_page(p);
        match part_at(self.image, self.map.kind, page, span, top)? {
            Part::Leaf(report) => Ok(report),
            Part::Children(inner) => {
                over_children(self.examine_children(inner, span, levels - 1))
            }
        }
    }

    // The children of an inner page, child 0 first.
    #[cycle(examine_children_examine_page)]
    fn examine_children(&mut self, page: Inner, span: Span, levels: u32) -> Result<Report, Refusal>
        requires { (levels < 16) × WholePage self.old.image self.old.map.kind page }
        ensures { self.new ≡ self.old × (result ≡ examined_children self.old.image self.old.map levels span page) }
    {
        let mut r = Report::none();
        let mut lo = span.lo;
        let mut counts = page.counts;
        let mut keys = page.keys;
        let mut j: u32 = 0;
        // The last child ends the loop inside: a `for` would go to a child after it for its end.
        loop {
            let c = child_at(self.image, self.map.kind, page, j, counts, keys, span.hi);
            let under = Span { lo, hi: c.hi };
            let x = self.examine_page(c.position, under, false, levels);
            r = tally(r, c.count, x)?;
            if j == page.n {
                return Ok(r);
            }
            lo = c.hi;
            counts = c.counts;
            keys = c.keys;
            j += 1;
        }
    }

    fn examine(&mut self) -> Result<Report, Refusal>
        ensures { result ≡ examine_in self.old.image self.old.map.store self.old.map.id self.old.map.kind }
    {
        let m = self.map;
        let root = self.root_at(m.id)?;
        if root.is_empty() {
            return Ok(Report::none());
        }
        let open = Span { lo: None, hi: None };
        self.examine_page(root, open, true, 16)
    }
}

// The examination of a map by its id and kind.
pub fn examine(image: &[u8], store: Store, map: u32, kind: Kind) -> Result<Report, Refusal>
    ensures { result ≡ examine_in image.now store map kind }
{
    let m = Map {
        store,
        id: map,
        kind,
    };
    with_words(image, |words| Asked::new(image, m, words).examine())
}
