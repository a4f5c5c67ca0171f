// Questions about keys.
use crate::question::Question;
use crate::yes_or_no;
use std::cmp::Ordering;
use std::io;

// `key KIND AT BYTES`: where the key's own bytes stand, how many they are, the place after them.
pub fn at(rt: &(impl Print + AllocGlobal), question: Question<'_>) -> io::Result<()> {
    let from = question.number(2) as usize;
    let bytes = question.bytes(rt.alloc(), 3)?;
    match key::key_at(&bytes, question.kind(), from) {
        Some(key) => println!(rt; "{:x} {:x} {:x}", key.spot.at, key.spot.len, key.next),
        None => println!(rt; "bad"),
    }
}

// `wellformed KIND BYTES`: whether they are a key of the kind.
pub fn well_formed(rt: &(impl Print + AllocGlobal), question: Question<'_>) -> io::Result<()> {
    let bytes = question.bytes(rt.alloc(), 2)?;
    let good = key::well_formed(question.kind(), &bytes);
    println!(rt; "{}", yes_or_no(good))
}

// `compare KIND A B`: how the two keys stand.
pub fn compare(rt: &(impl Print + AllocGlobal), question: Question<'_>) -> io::Result<()> {
    let one = question.bytes(rt.alloc(), 2)?;
    let other = question.bytes(rt.alloc(), 3)?;
    match key::compare(question.kind(), &one, &other) {
        Ordering::Less => println!(rt; "less"),
        Ordering::Equal => println!(rt; "equal"),
        Ordering::Greater => println!(rt; "greater"),
    }
}
