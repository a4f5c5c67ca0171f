// What a call remembers of the chunks that it located: two words for each, in an array of the call's
// own. The places taken come first, in the order of their chunks' ids, so that a chunk is found by
// halving; a free place is 0. What is recalled was remembered, and no chunk is forgotten; where there is
// no room, none is added.
// The words are packed and sorted by hand, since they are fixed memory on the stack, of which a call uses
// less than 96 KiB (include/mvstore.h): two for a chunk keep 4,096 chunks in 64 KiB.
#![tactic(auto)]

ghost use Rattle.std.specs.Prelude.{◌≡◌};
ghost use Rattle.memory.specs.Words.{place_in, full_in, below_in, sought_in, recalled_at, recalled_in, inserted_at, remembered_in};

use page::Place;
use std::mem;

#[derive(Clone, Copy, Debug, PartialEq, Eq)]
pub enum Recalled {
    At { place: Place, need: u32 },
    Free(usize),
    Full,
}

// What two words hold.
fn place_in(w: u64, v: u64) -> Place
    ensures { result ≡ place_in w v }
{
    Place {
        block: (w / 16 % 0x1000_0000) as u32,
        len: (v / 0x1_0000_0000) as u32,
        first: (v % 0x1_0000_0000) as u32,
    }
}

// Whether the last place is taken, or there is no place.
pub fn is_full(memory: &[u64]) -> bool
    ensures { result ≡ full_in memory.now }
{
    let n = memory.len() / 2;
    n == 0 || memory[2 * n - 2] != 0
}

// Whether the word is of a chunk whose id is below `c`.
fn is_below(w: u64, c: u32) -> bool
    ensures { result ≡ below_in w c }
{
    w != 0 && w / 0x1_0000_0000 < c as u64
}

// A place that is free or holds a chunk whose id is not below `c`, by halving.
fn seek(memory: &[u64], c: u32) -> usize
    ensures { result ≡ sought_in memory.now c }
{
    let mut low = 0;
    let mut high = memory.len() / 2;
    while low < high {
        let middle = low + (high - low) / 2;
        if is_below(memory[2 * middle], c) {
            low = middle + 1;
        } else {
            high = middle;
        }
    }
    low
}

// What the place numbered `i` says of chunk `c`.
fn recall_at(memory: &[u64], i: usize, c: u32) -> Recalled
    ensures { result ≡ recalled_at i memory.now c }
{
    if memory.len() / 2 <= i {
        return Recalled::Full;
    }
    let w = memory[2 * i];
    if w != 0 && w / 0x1_0000_0000 == c as u64 {
        return Recalled::At {
            place: place_in(w, memory[2 * i + 1]),
            need: (w % 16) as u32,
        };
    }
    if is_full(memory) {
        return Recalled::Full;
    }
    Recalled::Free(i)
}

// What is remembered of chunk `c`, or a place to put it.
pub fn recall(memory: &[u64], c: u32) -> Recalled
    ensures { result ≡ recalled_in memory.now c }
{
    recall_at(memory, seek(memory, c), c)
}

// Puts two words at the place numbered `i`; what was there and after it moves one place on, up to the
// first free place.
fn insert(memory: &mut [u64], i: usize, mut w: u64, mut v: u64)
    ensures { memory.new ≡ inserted_at memory.old i w v }
{
    for j in i..memory.len() / 2 {
        mem::swap(&mut memory[2 * j], &mut w);
        mem::swap(&mut memory[2 * j + 1], &mut v);
        if w == 0 {
            return;
        }
    }
}

// Remembers chunk `c`, unless it is remembered or no place is free.
pub fn remember(memory: &mut [u64], c: u32, place: Place, need: u32)
    ensures { memory.new ≡ remembered_in memory.old c place need }
{
    if let Recalled::Free(i) = recall(memory, c) {
        let at = place.block as u64 % 0x1000_0000 * 16 + need as u64 % 16;
        insert(
            memory,
            i,
            c as u64 * 0x1_0000_0000 + at,
            place.len as u64 * 0x1_0000_0000 + place.first as u64,
        );
    }
}
