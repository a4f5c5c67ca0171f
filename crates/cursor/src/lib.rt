// The walk's state, and what one page says to a walk: what follows a number there, and what is first.
#![tactic(auto)]

mod follow;

ghost use Rattle.std.specs.Prelude.{◌≡◌, true, length, Ok, Err, None};
ghost use Rattle.refusal.specs.Refusal.{number_of};
ghost use Rattle.cursor.specs.Walk.{formed, closed, fresh, done_number};
ghost use Rattle.cursor.specs.Steps.{empty_step, numbered, left_step};

use content::Entry;
pub use follow::{After, Down, Left, Leftmost, after_at, first_at, over_at};
use refusal::Refusal;

// Child numbers from the root on and, last, the number of the entry last yielded; how many they are;
// and the last answer's number: 0 for going on, `DONE`, or a refusal's.
// The C interface hands it over, so that it is laid out as in C and its answer is a number.
#[repr(C)]
#[derive(Clone, Copy, Debug, PartialEq, Eq)]
pub struct Walk {
    pub places: [u32; 16],
    pub depth: u32,
    pub last: u32,
}

// A step: the state after it, and the entry that it yields, nothing where the walk is done, or a refusal.
#[derive(Clone, Copy, Debug, PartialEq, Eq)]
pub struct Stepped {
    pub walk: Walk,
    pub got: Result<Option<Entry>, Refusal>,
}

impl Walk {
    // The last answer's number for Done.
    pub const DONE: u32 = 255;

    pub fn fresh() -> Self
        ensures { result ≡ fresh }
    {
        Walk {
            places: [0u32; 16],
            depth: 0,
            last: 0,
        }
    }

    // The same places and depth, with another last answer.
    fn closed(self, last: u32) -> Self
        ensures { result ≡ closed self last }
    {
        Walk { last, ..self }
    }

    // Done, recorded.
    pub fn done(self) -> Stepped
        ensures { result ≡ record { walk = closed self done_number; got = Ok None } }
    {
        Stepped {
            walk: self.closed(Walk::DONE),
            got: Ok(None),
        }
    }

    // A refusal, recorded.
    pub fn refused(self, r: Refusal) -> Stepped
        ensures { result ≡ record { walk = closed self (number_of r); got = Err r } }
    {
        Stepped {
            walk: self.closed(r.number() as u32),
            got: Err(r),
        }
    }

    // A step in an empty map, which no number fits.
    pub fn in_empty(self) -> Stepped
        ensures { result ≡ empty_step self }
    {
        if self.depth == 0 {
            return self.done();
        }
        self.refused(Refusal::Unsound)
    }
}

// Whether the state is formed as it must be. A caller learns that a formed one has 16 places.
pub fn is_formed(w: Walk) -> bool
    ensures { (result ≡ formed w) × (result ≡ true → length w.places ≡ 16) }
{
    if w.last != 0 || 16 < w.depth {
        return false;
    }
    w.places[w.depth as usize..].iter().all(|&place| place == 0)
}

// The state with the numbers before place `l`, then `n`, then zeros; with the places as they are where
// there is no place `l`.
pub fn numbered(from: [u32; 16], l: u32, n: u32, depth: u32) -> Walk
    ensures { result ≡ numbered from l n depth }
{
    let mut places = from;
    if l < 16 {
        let l = l as usize;
        places[l] = n;
        places[l + 1..].fill(0);
    }
    Walk {
        places,
        depth,
        last: 0,
    }
}

// The step to the leftmost entry under the page that place `l` with number `n` leads to.
pub fn left_step(w: Walk, l: u32, n: u32, m: Result<Option<Leftmost>, Refusal>) -> Stepped
    ensures { result ≡ left_step w l n m }
{
    match m {
        Ok(Some(leftmost)) => Stepped {
            walk: numbered(w.places, l, n, leftmost.depth),
            got: Ok(Some(leftmost.entry)),
        },
        Ok(None) => w.done(),
        Err(r) => w.refused(r),
    }
}
