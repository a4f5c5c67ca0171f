// Opens images and asks for their maps, roots, chunks and pages by the proved crates. The file `stdout`
// has what the plain model in tests/ says to the same questions, to which these answers are held.
//
// The input is lines of words with one space before each but the first. Numbers are decimal, bytes
// two hex digits each.
//
//     image NAME BLOCKS     an image begins: so many blocks of zeros
//     keep                  the image as it stands is the base from now on
//     like NAME             an image begins as a copy of the base
//     put PLACE HEX         bytes placed in the image
//     cut BYTES             so many bytes of it are the image
//     edition N             the edition in which it is opened from now on; 1 where an image begins
//     open                  what the image opens to: `chunk C block B version V`
//     map HEX               the id of the map with a name: `id N`
//     root ID               the root of a map: `root POSITION`
//     chunk N               where a chunk is: `block N`
//     page POSITION ID KIND the page due for a map of a kind, and its keys: `leaf N` or `inner N`
//
// An image's first line has its name; a question may also be answered by `refused N`.
#![tactic(auto)]

mod answer;
mod asking;
mod command;
mod images;

use command::Command;
use images::Images;
use std::io::{self, ErrorKind, Read, Write};

// The most bytes of the input; what comes after them is not read.
const MOST_INPUT: usize = 1000000;

// An image begins: its name.
fn begun(rt: &impl Print, name: &[u8]) -> io::Result<()> {
    let mut to = io::writer(rt);
    to.write_all(name)?;
    to.write_all(b"\n")
}

// Makes the images by a command, or answers it.
fn take(rt: &impl Print, command: Command<'_>, images: &mut Images) -> io::Result<()> {
    match command.name() {
        "image" => {
            images.begin(command.number(2))?;
            begun(rt, command.word(1))?;
        }
        "like" => {
            images.like()?;
            begun(rt, command.word(1))?;
        }
        "keep" => images.keep()?,
        "put" => images.put(command),
        "cut" => images.cut(command.number(1) as usize),
        "edition" => images.edition = command.number(1),
        _ => match asking::answer(command, &images.image, images.edition) {
            Ok(answer) => println!(rt; "{answer}")?,
            Err(refusal) => println!(rt; "{refusal}")?,
        },
    }
    Ok(())
}

// A read or a write that fails is passed over: the input ends there, and the next answer is written all
// the same. Want of memory is not.
fn passed_over(done: io::Result<()>) -> io::Result<()> {
    match done {
        Err(e) if e.kind() == ErrorKind::OutOfMemory => Err(e),
        _ => Ok(()),
    }
}

// From line to line, which no range counts.
fn take_all(rt: &impl Print, input: &[u8], images: &mut Images) -> io::Result<()> {
    let mut at = 0;
    while at < input.len() {
        passed_over(take(rt, Command::new(script::line(input, at)), images))?;
        at = script::next_line(input, at);
    }
    Ok(())
}

fn main(rt: HostRuntime) -> io::Result<()> {
    let mut images = Images::new(rt.alloc());
    let mut input = Vec::with_capacity(rt.alloc(), MOST_INPUT)?;
    let mut reader = rt.reader().take(MOST_INPUT as u64);
    passed_over(reader.read_to_end(&mut input).map(|_| ()))?;
    take_all(&rt, &input, &mut images)
}
