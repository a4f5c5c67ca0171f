// The walk of a map, by its id and kind: entries from left to right, one a step, from a state that the
// caller keeps. A recorded answer is given again before anything is judged.
#![tactic(auto)]

ghost use Rattle.std.specs.Prelude.{◌≡◌};
ghost use Rattle.tree.specs.Walk.{stop};
ghost use Rattle.walk.specs.Stepping.{step_of, given};
ghost use Rattle.walk.specs.Given.{next_by, step_by, moved_after};

use content::Entry;
use cursor::{Stepped, Walk};
use key::Kind;
use map::Item;
use opening::View;
use refusal::Refusal;

// The highest number of the table of refusals.
pub const TABLE: u32 = 16;

// A step: the state after it, and the entry that it yields, if one is left.
#[derive(Clone, Copy, Debug, PartialEq, Eq)]
pub struct Step {
    pub walk: Walk,
    pub next: Result<Option<Item>, Refusal>,
}

// What is yielded, with its key read.
fn next_by(
    image: &[u8],
    kind: Kind,
    got: Result<Option<Entry>, Refusal>,
) -> Result<Option<Item>, Refusal>
    ensures { result ≡ next_by image.now kind got }
{
    match got? {
        Some(entry) => Ok(Some(map::item_at(image, kind, entry))),
        None => Ok(None),
    }
}

// The step with its key read.
fn step_by(image: &[u8], kind: Kind, s: Stepped) -> Step
    ensures { result ≡ step_by image.now kind s }
{
    Step {
        walk: s.walk,
        next: next_by(image, kind, s.got),
    }
}

// A refusal, recorded.
fn refused(w: Walk, r: Refusal) -> Step
    ensures { result ≡ given w (stop r) }
{
    let s = w.refused(r);
    Step {
        walk: s.walk,
        next: Err(r),
    }
}

// A step in a map that may be asked for.
fn advance_in(image: &[u8], view: View, id: u32, kind: Kind, w: Walk) -> Step
    ensures { result ≡ given w (moved_after image.now view id kind w) }
{
    match viewing::open(image, view) {
        Ok(s) => step_by(image, kind, store::advance(image, s, id, kind, w)),
        Err(r) => refused(w, r),
    }
}

// One step of the walk.
pub fn advance(image: &[u8], view: View, map: u64, kind: u64, w: Walk) -> Step
    ensures { result ≡ step_of image.now view map kind w }
{
    if w.last == Walk::DONE {
        return Step {
            walk: w,
            next: Ok(None),
        };
    }
    if let Ok(r) = Refusal::try_from(w.last) {
        return Step {
            walk: w,
            next: Err(r),
        };
    }
    match map::asked(map, kind) {
        Ok((id, k)) => advance_in(image, view, id, k, w),
        Err(r) => refused(w, r),
    }
}
