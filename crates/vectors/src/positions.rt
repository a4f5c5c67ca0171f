// Questions about positions.
use crate::question::Question;
use position::Position;
use std::io;

// `position NUMBER`: its chunk id, offset, length code and type.
pub fn take_apart(rt: &impl Print, question: Question<'_>) -> io::Result<()> {
    let p = Position {
        bits: question.number(1),
    };
    println!(rt;
        "{:x} {:x} {:x} {:x}",
        p.chunk(),
        p.offset(),
        p.code(),
        p.page_type()
    )
}

// `make CHUNK OFFSET CODE TYPE`: the position with these fields.
pub fn make(rt: &impl Print, question: Question<'_>) -> io::Result<()> {
    let chunk = question.number32(1);
    let offset = question.number32(2);
    let code = question.number32(3);
    let page_type = question.number32(4);
    match Position::make(chunk, offset, code, page_type) {
        Some(p) => println!(rt; "{:x}", p.bits),
        None => println!(rt; "bad"),
    }
}

// `bound CODE`: the most bytes under a length code.
pub fn bound(rt: &impl Print, question: Question<'_>) -> io::Result<()> {
    match position::bound_of(question.number32(1)) {
        Some(most) => println!(rt; "{most:x}"),
        None => println!(rt; "none"),
    }
}

// `check CHUNK OFFSET LENGTH`: a page's check value.
pub fn check(rt: &impl Print, question: Question<'_>) -> io::Result<()> {
    let chunk = question.number32(1);
    let offset = question.number32(2);
    let length = question.number32(3);
    println!(rt; "{:x}", position::check_value(chunk, offset, length))
}
