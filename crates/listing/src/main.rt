// The listing: reads an image from standard input, examines map `forces`, kind 0, and lists it in
// decimal; or prints only `refused N`. The image is opened once, in the first edition, and walked once.
#![tactic(auto)]

use cursor::Walk;
use key::Kind;
use opening::{Store, View};
use refusal::Refusal;
use std::io::{self, ErrorKind, Read};
use tree::Report;

// Input over this many bytes is refused.
const MOST_BYTES: usize = 65536;

// A map that the examination passes.
#[derive(Clone, Copy)]
struct Examined {
    store: Store,
    id: u32,
    report: Report,
}

// The map `forces` of an image.
fn forces(image: &[u8]) -> Result<Examined, Refusal> {
    if MOST_BYTES < image.len() {
        return Err(Refusal::ImageSize);
    }
    let store = viewing::open(image, View { edition: 1 })?;
    let id = store::map_id(image, store, b"forces")?;
    let report = store::examine(image, store, id, Kind::Number)?;
    Ok(Examined { store, id, report })
}

// As many steps of the walk as the examination counted entries.
fn list_entries(rt: &impl Print, image: &[u8], map: Examined) -> io::Result<()> {
    let mut walk = Walk::fresh();
    for _ in 0..map.report.entries {
        let step = store::advance(image, map.store, map.id, Kind::Number, walk);
        let Ok(Some(entry)) = step.got else {
            break;
        };
        let key = numeral::be64(image, entry.key.at).cast_signed();
        passed_over(println!(rt; "{key} {}", entry.value.len))?;
        walk = step.walk;
    }
    Ok(())
}

fn list(rt: &impl Print, image: &[u8], map: Examined) -> io::Result<()> {
    let chunk = map.store.newest;
    passed_over(println!(rt;
        "chunk {} block {} version {}",
        chunk.id, chunk.block, chunk.version
    ))?;
    let report = map.report;
    passed_over(println!(rt;
        "map {} entries {} pages {} depth {}",
        map.id, report.entries, report.pages, report.depth
    ))?;
    list_entries(rt, image, map)
}

// A read or a write that fails is passed over: the image ends there, and the next line is written all the
// same. Want of memory is not.
fn passed_over(done: io::Result<()>) -> io::Result<()> {
    match done {
        Err(e) if e.kind() == ErrorKind::OutOfMemory => Err(e),
        _ => Ok(()),
    }
}

fn main(rt: HostRuntime) -> io::Result<()> {
    // One byte more than an image may have.
    let mut input = rt.reader().take(MOST_BYTES as u64 + 1);
    let mut image = Vec::new(rt.alloc());
    passed_over(input.read_to_end(&mut image).map(|_| ()))?;
    match forces(&image) {
        Ok(map) => list(&rt, &image, map),
        Err(refusal) => passed_over(println!(rt; "{refusal}")),
    }
}
