// Questions about lines.
use crate::question::Question;
use crate::yes_or_no;
use line::{Fields, Name};
use std::{fmt, io};

// What a line says, as an answer: the value of each name, `-` where it is not given.
#[derive(Clone, Copy)]
struct Said(Fields);

impl fmt::Display for Said {
    fn fmt<W: fmt::Write>(&self, f: &mut fmt::Formatter<W>) -> fmt::Result {
        for (i, name) in Name::ALL.into_iter().enumerate() {
            if 0 < i {
                f.write_str(" ")?;
            }
            match self.0.get(name) {
                Some(value) => write!(f, "{value:x}")?,
                None => f.write_str("-")?,
            }
        }
        Ok(())
    }
}

// `line BYTES`: the length of the line that the area begins with, and the place of the newline.
pub fn of_area(rt: &(impl Print + AllocGlobal), question: Question<'_>) -> io::Result<()> {
    let area = question.bytes(rt.alloc(), 1)?;
    match line::line_of(&area) {
        Some(line) => println!(rt; "{:x} {:x}", line.len, line.newline),
        None => println!(rt; "none"),
    }
}

// `fields BYTES`: what the line says of each known name.
pub fn fields(rt: &(impl Print + AllocGlobal), question: Question<'_>) -> io::Result<()> {
    let line = question.bytes(rt.alloc(), 1)?;
    match line::read_fields(&line) {
        Some(fields) => println!(rt; "{}", Said(fields)),
        None => println!(rt; "bad"),
    }
}

// `right EDITION BYTES`: whether the line ends with a right `fletcher`.
pub fn right(rt: &(impl Print + AllocGlobal), question: Question<'_>) -> io::Result<()> {
    let line = question.bytes(rt.alloc(), 2)?;
    let right = line::right_sum(question.edition(), &line);
    println!(rt; "{}", yes_or_no(right))
}
