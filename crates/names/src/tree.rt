// The tree of a line's names, and whether names are in it.
ghost use Rattle.std.specs.Prelude.{◌+◌, ◌-◌, ◌*◌, ◌≤◌, ◌<◌, ◌≡◌, true, length, set};
ghost use Rattle.text.specs.Text.{every, is_letter, same};
ghost use Rattle.names.specs.Tree.{bit_of, name_at, name_end, sought_in, is_in, parts_from, clear, Room, Filling};

// How many nodes a tree has room for, in 12 KiB of the stack. The longest line that a store holds, 65,535
// bytes, has 11,390 names at most: six trees.
const NODES: usize = 2047;

// How far from the first name of a tree its others begin at most: their places are words of 16 bits.
const REACH: usize = 65535;

// How many nodes a name's way meets at most: it has a bit for each of them but the last.
const LEVELS: usize = 97;

// Where a name's way down ends: at a node of this name, at a free slot, or nowhere.
#[derive(Clone, Copy, Debug, PartialEq, Eq)]
enum Search {
    Met,
    Free(usize),
    Deep,
}

// What becomes of a tree: whether the names are distinct, or it has no room for the name at `next`.
#[derive(Clone, Copy, Debug, PartialEq, Eq)]
pub(crate) enum Filled {
    Distinct(bool),
    Full { next: usize },
}

// Bit `d` of a name: six of each letter tell it from any other, and the last letter's come first.
fn bit(name: &[u8], d: usize) -> usize
    ensures { result ≡ bit_of name.now d }
{
    let k = d / 6;
    if k < name.len() {
        (name[name.len() - 1 - k] as usize >> (d % 6)) % 2
    } else {
        0
    }
}

// Whether the letters at `at` are `name`: its bytes, and no letter after them.
fn named_at(line: &[u8], at: usize, name: &[u8]) -> bool
    requires { (at + length name.now ≤ length line.now + 65535) × (every is_letter name.now ≡ true) }
    ensures { result ≡ same (name_at line.now at) name.now }
{
    let to = at + name.len();
    if line.len() < to {
        return name.is_empty();
    }
    text::same_bytes(&line[at..to], name) && text::letters_end(line, to) == to
}

// The place after the name at `i`; `i` itself where no name of 1 to 16 letters is there.
fn name_end(line: &[u8], i: usize) -> usize
    ensures { result ≡ name_end line.now i }
{
    let to = text::letters_end(line, i);
    if 16 < to - i {
        return i;
    }
    to
}

// The names of a line from the place `from` on, as many as there is room for. Node k of the `used` ones
// has its name at `places[k]`, counted from `from`, and its two slots at `kids[2 * k]`; a slot is 0 or the
// number of the node in it. The root is in slot 0. Arrays, since the library allocates nothing.
#[derive(Drop)]
pub(crate) struct NameTree {
    from: usize,
    used: usize,
    places: [u16; 2048],
    kids: [u16; 4096],
}

impl NameTree {
    pub(crate) fn new() -> Self
        ensures begins { result.from ≡ 0 }
        ensures count { result.used ≡ 0 }
        ensures room { Room result.places result.kids }
    {
        NameTree {
            from: 0,
            used: 0,
            places: [0; 2048],
            kids: [0; 4096],
        }
    }

    // Where the way of `name` ends.
    fn seek(&self, line: &[u8], name: &[u8]) -> Search
        requires { (self.now.used ≤ 2047) × (self.now.from + length name.now ≤ length line.now) × (every is_letter name.now ≡ true) }
        ensures { result ≡ sought_in line.now self.now.from self.now.places self.now.kids self.now.used name.now }
    {
        let mut slot = 0;
        for d in 0..LEVELS {
            let node = self.kids[slot] as usize;
            if node == 0 {
                return Search::Free(slot);
            }
            if self.used < node {
                return Search::Deep;
            }
            if named_at(line, self.from + self.places[node] as usize, name) {
                return Search::Met;
            }
            slot = 2 * node + bit(name, d);
        }
        Search::Deep
    }

    // Whether `name` is in the tree.
    fn is_in(&self, line: &[u8], name: &[u8]) -> bool
        requires { (self.now.used ≤ 2047) × (self.now.from + length name.now ≤ length line.now) × (every is_letter name.now ≡ true) }
        ensures { result ≡ is_in line.now self.now.from self.now.places self.now.kids self.now.used name.now }
    {
        matches!(self.seek(line, name), Search::Met)
    }

    // One node more, for the name at `i`, in a free slot.
    fn grow(&mut self, slot: usize, i: usize)
        requires { (self.old.used < 2047) × (slot < 4096) × (self.old.from ≤ i) × (i < self.old.from + 65536) }
        ensures begins { self.new.from ≡ self.old.from }
        ensures count { self.new.used ≡ self.old.used + 1 }
        ensures place { self.new.places ≡ set self.old.places (self.old.used + 1) (i - self.old.from) }
        ensures slots { self.new.kids ≡ set (set (set self.old.kids (2 * (self.old.used + 1)) 0) (2 * (self.old.used + 1) + 1) 0) slot (self.old.used + 1) }
    {
        self.used += 1;
        let node = self.used;
        self.places[node] = (i - self.from) as u16;
        self.kids[2 * node] = 0;
        self.kids[2 * node + 1] = 0;
        self.kids[slot] = node as u16;
    }

    // Begins anew with the names from `from` on, as many as there is room for.
    pub(crate) fn fill(&mut self, line: &[u8], from: usize) -> Filled
        requires { (from ≤ length line.now) × Room self.old.places self.old.kids }
        ensures room { Room self.new.places self.new.kids }
        ensures begins { self.new.from ≡ from }
        ensures filled { Filling line.now from self.new.places self.new.kids self.new.used result }
    {
        self.from = from;
        self.used = 0;
        self.kids[0] = 0;
        let mut i = from;
        // From name to name, which no range counts; so is the loop below.
        while self.used < NODES && i - from <= REACH {
            let to = name_end(line, i);
            if to == i {
                return Filled::Distinct(false);
            }
            match self.seek(line, &line[i..to]) {
                Search::Met => return Filled::Distinct(false),
                Search::Deep => return Filled::Full { next: i },
                Search::Free(slot) => self.grow(slot, i),
            }
            let end = text::find_byte(line, to, b',');
            if end == line.len() {
                return Filled::Distinct(true);
            }
            i = end + 1;
        }
        Filled::Full { next: i }
    }

    // Whether none of the names from `next` on is in the tree.
    pub(crate) fn none_in(&self, line: &[u8], next: usize) -> bool
        requires { (self.now.from ≤ next) × (next ≤ length line.now) × (self.now.used ≤ 2047) }
        ensures { result ≡ clear (is_in line.now self.now.from self.now.places self.now.kids self.now.used)
            (parts_from line.now next) }
    {
        let mut i = next;
        loop {
            let to = text::letters_end(line, i);
            if self.is_in(line, &line[i..to]) {
                return false;
            }
            let end = text::find_byte(line, to, b',');
            if end == line.len() {
                return true;
            }
            i = end + 1;
        }
    }
}
