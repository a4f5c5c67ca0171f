// All fields of a line, in one pass: the values of the names that the file's lines are asked for.
ghost use Rattle.std.specs.Prelude.{◌≡◌, true, false};
ghost use Rattle.line.specs.Fields.{read_of, text_of};
ghost use Rattle.names.specs.Names.{parts_after, distinct_names};
ghost use Rattle.line.specs.Reading.{slot_of, place_of, known_name, value_of, seen};

use super::field::field_at;

// The names that the file's lines are asked for.
#[derive(Clone, Copy, Debug, PartialEq, Eq)]
pub enum Name {
    H,
    BlockSize,
    Format,
    Block,
    Chunk,
    Version,
    Len,
    Next,
    Pages,
    Root,
    Fletcher,
}

impl Name {
    pub const ALL: [Name; Fields::NAMES] = [
        Name::H,
        Name::BlockSize,
        Name::Format,
        Name::Block,
        Name::Chunk,
        Name::Version,
        Name::Len,
        Name::Next,
        Name::Pages,
        Name::Root,
        Name::Fletcher,
    ];

    // Its place among them.
    fn index(self) -> usize
        ensures { result ≡ place_of self }
    {
        self as usize
    }
}

// What a line says of each known name, in the order of the names: its value, where it is given.
#[derive(Clone, Copy, Debug, PartialEq, Eq)]
pub struct Fields {
    pub values: [Option<u64>; 11],
}

impl Fields {
    // How many names there are.
    pub const NAMES: usize = 11;

    // The value of a name, if it is given.
    pub fn get(&self, name: Name) -> Option<u64>
        ensures { result ≡ value_of self.now (text_of name) }
    {
        self.values[name.index()]
    }
}

// The known name that these letters are. Not a `match` on the texts: it tests byte after byte, which makes
// 68 ways through, and their goals stay open.
fn slot_of(name: &[u8]) -> Option<Name>
    ensures { result ≡ known_name name.now }
{
    if text::same_bytes(b"H", name) {
        return Some(Name::H);
    }
    if text::same_bytes(b"blockSize", name) {
        return Some(Name::BlockSize);
    }
    if text::same_bytes(b"format", name) {
        return Some(Name::Format);
    }
    if text::same_bytes(b"block", name) {
        return Some(Name::Block);
    }
    if text::same_bytes(b"chunk", name) {
        return Some(Name::Chunk);
    }
    if text::same_bytes(b"version", name) {
        return Some(Name::Version);
    }
    if text::same_bytes(b"len", name) {
        return Some(Name::Len);
    }
    if text::same_bytes(b"next", name) {
        return Some(Name::Next);
    }
    if text::same_bytes(b"pages", name) {
        return Some(Name::Pages);
    }
    if text::same_bytes(b"root", name) {
        return Some(Name::Root);
    }
    if text::same_bytes(b"fletcher", name) {
        return Some(Name::Fletcher);
    }
    None
}

// Whether the name is given already or, where it is not a known one, comes again after `end`.
// Nothing is looked for where the names are known to be `apart`.
fn repeats(
    f: &Fields,
    known: Option<Name>,
    apart: bool,
    line: &[u8],
    end: usize,
    name: &[u8],
) -> bool
    requires known { known ≡ known_name name.now }
    requires apart { apart ≡ true → seen f.now (slot_of name.now) name.now (parts_after line.now end) ≡ false }
    ensures { result ≡ seen f.now (slot_of name.now) name.now (parts_after line.now end) }
{
    if apart {
        return false;
    }
    match known {
        Some(k) => f.get(k).is_some(),
        None => names::named_later(line, end, name),
    }
}

// What `line` says, field by field. Each unknown name is compared with all after it, unless the names are
// known to be `apart`.
#[tactic(auto, using(crate::specs::FieldLaws::part_placed))]
fn read_each(line: &[u8], apart: bool) -> Option<Fields>
    requires { apart ≡ true → distinct_names line.now ≡ true }
    ensures { result ≡ read_of line.now }
{
    let mut fields = Fields { values: [None; 11] };
    let mut i = 0;
    // From field to field, which no range counts.
    loop {
        let field = field_at(line, i)?;
        let name = &line[i..field.colon];
        let known = slot_of(name);
        if repeats(&fields, known, apart, line, field.end, name) {
            return None;
        }
        if let Some(k) = known {
            fields.values[k.index()] = Some(field.value);
        }
        if field.end == line.len() {
            return Some(fields);
        }
        i = field.end + 1;
    }
}

// A line of so many bytes or fewer is read at once: it has few names, and a tree for them costs more.
const SHORT: usize = 192;

// What `line` says; nothing where it breaks a rule.
pub fn read_fields(line: &[u8]) -> Option<Fields>
    ensures { result ≡ read_of line.now }
{
    if line.len() <= SHORT {
        return read_each(line, false);
    }
    if names::are_distinct(line) {
        read_each(line, true)
    } else {
        None
    }
}
