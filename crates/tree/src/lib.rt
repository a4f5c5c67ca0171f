// What is asked of a map's pages, over any reading of pages and any order of keys: definitions and
// theorems, in specs/ and proofs/. The crates above have the code; here is only what an examination reports.
#![tactic(auto)]

ghost use Rattle.std.specs.Prelude.{◌≡◌};
ghost use Rattle.tree.specs.Examination.{nothing};

// Entries, pages and the deepest page's depth.
#[derive(Clone, Copy, Debug, PartialEq, Eq)]
pub struct Report {
    pub entries: u64,
    pub pages: u64,
    pub depth: u32,
}

impl Report {
    // Of no page.
    pub fn none() -> Self
        ensures { result ≡ nothing }
    {
        Report {
            entries: 0,
            pages: 0,
            depth: 0,
        }
    }
}
