// Whether the names of a line's parts are distinct, without comparing each with each. The names are kept
// in a tree, where a name meets those only that share its way down by its letters' bits, at most 97 of
// them. A tree has room for some of the names; those after them are looked for in it, and then have a tree
// of their own.
#![tactic(auto)]

mod tree;

ghost use Rattle.std.specs.Prelude.{◌≡◌};
ghost use Rattle.names.specs.Names.{parts_after, named_in, distinct_names};

use tree::{Filled, NameTree};

// Whether a part after the one that ends at `at` begins with `name`: with these letters and no more.
pub fn named_later(line: &[u8], at: usize, name: &[u8]) -> bool
    ensures { result ≡ named_in name.now (parts_after line.now at) }
{
    // From comma to comma, which no range counts.
    let mut i = at;
    while i < line.len() {
        let from = i + 1;
        let to = text::letters_end(line, from);
        if text::same_bytes(name, &line[from..to]) {
            return true;
        }
        i = text::find_byte(line, to, b',');
    }
    false
}

// Whether each part of `line` begins with a name of 1 to 16 letters that no other part begins with.
pub fn are_distinct(line: &[u8]) -> bool
    ensures { result ≡ distinct_names line.now }
{
    let mut tree = NameTree::new();
    let mut i = 0;
    // From one filling of the tree to the next: where it stops, the tree says.
    loop {
        let next = match tree.fill(line, i) {
            Filled::Distinct(distinct) => return distinct,
            Filled::Full { next } => next,
        };
        if !tree.none_in(line, next) {
            return false;
        }
        i = next;
    }
}
