// What the exports hand to C: a struct for each answer, and how it is made of the answers in Rattle. C
// has no Option and no Result: a refusal is its number, and `found` and `done` stand beside the values.
ghost use Rattle.std.specs.Prelude.{◌≡◌};
ghost use Rattle.mvstore.specs.Exports.{newest_out, value_out, entry_out, count_out, id_out, stop_out, item_out, step_out, report_out};

use cursor::Walk;
use map::{Item, Key};
use opening::Store;
use refusal::Refusal;
use text::Spot;

// What opening answers: the newest chunk, its first block and how many it has, and its version.
#[repr(C)]
#[derive(Clone, Copy)]
pub struct Newest {
    pub refusal: u32,
    pub chunk: u32,
    pub block: u32,
    pub blocks: u32,
    pub version: u64,
}

// What lookup and copy answer: `found` is 1 for a value and 0 for Absent.
#[repr(C)]
#[derive(Clone, Copy)]
pub struct Value {
    pub refusal: u32,
    pub found: u32,
    pub at: u64,
    pub len: u64,
}

// What index answers: a number key as `number`, a text key by place and length; then the value.
#[repr(C)]
#[derive(Clone, Copy)]
pub struct Entry {
    pub refusal: u32,
    pub number: i64,
    pub key_at: u64,
    pub key_len: u64,
    pub at: u64,
    pub len: u64,
}

#[repr(C)]
#[derive(Clone, Copy)]
pub struct Count {
    pub refusal: u32,
    pub count: u64,
}

#[repr(C)]
#[derive(Clone, Copy)]
pub struct Id {
    pub refusal: u32,
    pub id: u64,
}

// What a step of the walk answers: `done` is 1 where no entry is left. The state is the caller's to
// hand in again, after a refusal too.
#[repr(C)]
#[derive(Clone, Copy)]
pub struct Step {
    pub refusal: u32,
    pub done: u32,
    pub number: i64,
    pub key_at: u64,
    pub key_len: u64,
    pub at: u64,
    pub len: u64,
    pub walk: Walk,
}

#[repr(C)]
#[derive(Clone, Copy)]
pub struct Report {
    pub refusal: u32,
    pub depth: u32,
    pub entries: u64,
    pub pages: u64,
}

#[tactic(auto, unfolding(crate::specs::Exports::newest_out))]
pub(crate) fn newest_out(s: Result<Store, Refusal>) -> Newest
    ensures { result ≡ newest_out s }
{
    match s {
        Ok(s) => {
            let c = s.newest;
            Newest {
                refusal: 0,
                chunk: c.id,
                block: c.block,
                blocks: c.len,
                version: c.version,
            }
        }
        Err(r) => Newest {
            refusal: r.number() as u32,
            chunk: 0,
            block: 0,
            blocks: 0,
            version: 0,
        },
    }
}

#[tactic(auto, unfolding(crate::specs::Exports::value_out))]
pub(crate) fn value_out(v: Result<Option<Spot>, Refusal>) -> Value
    ensures { result ≡ value_out v }
{
    match v {
        Ok(Some(spot)) => Value {
            refusal: 0,
            found: 1,
            at: spot.at as u64,
            len: spot.len as u64,
        },
        Ok(None) => Value {
            refusal: 0,
            found: 0,
            at: 0,
            len: 0,
        },
        Err(r) => Value {
            refusal: r.number() as u32,
            found: 0,
            at: 0,
            len: 0,
        },
    }
}

#[tactic(auto, unfolding(crate::specs::Exports::entry_out))]
pub(crate) fn entry_out(i: Result<Item, Refusal>) -> Entry
    ensures { result ≡ entry_out i }
{
    match i {
        Ok(item) => match item.key {
            Key::Number(number) => Entry {
                refusal: 0,
                number,
                key_at: 0,
                key_len: 0,
                at: item.value.at as u64,
                len: item.value.len as u64,
            },
            Key::Text(key) => Entry {
                refusal: 0,
                number: 0,
                key_at: key.at as u64,
                key_len: key.len as u64,
                at: item.value.at as u64,
                len: item.value.len as u64,
            },
        },
        Err(r) => Entry {
            refusal: r.number() as u32,
            number: 0,
            key_at: 0,
            key_len: 0,
            at: 0,
            len: 0,
        },
    }
}

#[tactic(auto, unfolding(crate::specs::Exports::count_out))]
pub(crate) fn count_out(c: Result<u64, Refusal>) -> Count
    ensures { result ≡ count_out c }
{
    match c {
        Ok(count) => Count { refusal: 0, count },
        Err(r) => Count {
            refusal: r.number() as u32,
            count: 0,
        },
    }
}

#[tactic(auto, unfolding(crate::specs::Exports::id_out))]
pub(crate) fn id_out(i: Result<u32, Refusal>) -> Id
    ensures { result ≡ id_out i }
{
    match i {
        Ok(id) => Id {
            refusal: 0,
            id: id as u64,
        },
        Err(r) => Id {
            refusal: r.number() as u32,
            id: 0,
        },
    }
}

// A step without an entry.
fn stop_out(refusal: u32, done: u32, walk: Walk) -> Step
    ensures { result ≡ stop_out refusal done walk }
{
    Step {
        refusal,
        done,
        number: 0,
        key_at: 0,
        key_len: 0,
        at: 0,
        len: 0,
        walk,
    }
}

// A step that yields an entry.
fn item_out(item: Item, walk: Walk) -> Step
    ensures { result ≡ item_out walk item }
{
    match item.key {
        Key::Number(number) => Step {
            refusal: 0,
            done: 0,
            number,
            key_at: 0,
            key_len: 0,
            at: item.value.at as u64,
            len: item.value.len as u64,
            walk,
        },
        Key::Text(key) => Step {
            refusal: 0,
            done: 0,
            number: 0,
            key_at: key.at as u64,
            key_len: key.len as u64,
            at: item.value.at as u64,
            len: item.value.len as u64,
            walk,
        },
    }
}

#[tactic(auto, unfolding(crate::specs::Exports::step_out))]
pub(crate) fn step_out(s: walk::Step) -> Step
    ensures { result ≡ step_out s }
{
    match s.next {
        Ok(Some(item)) => item_out(item, s.walk),
        Ok(None) => stop_out(0, 1, s.walk),
        Err(r) => stop_out(r.number() as u32, 0, s.walk),
    }
}

#[tactic(auto, unfolding(crate::specs::Exports::report_out))]
pub(crate) fn report_out(e: Result<tree::Report, Refusal>) -> Report
    ensures { result ≡ report_out e }
{
    match e {
        Ok(a) => Report {
            refusal: 0,
            depth: a.depth,
            entries: a.entries,
            pages: a.pages,
        },
        Err(r) => Report {
            refusal: r.number() as u32,
            depth: 0,
            entries: 0,
            pages: 0,
        },
    }
}
