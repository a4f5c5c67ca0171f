// Answers questions about the leaves by their proved functions. The file `stdout` has the answers of
// the plain model in tests/, to which these are held.
//
// A question is a line: a name and its arguments, with one space before each. Byte strings are two
// hex digits a byte, `-` for none; numbers are hex. Each question gets one line as its answer.
#![tactic(auto)]

mod keys;
mod lines;
mod numbers;
mod positions;
mod question;

use question::Question;
use std::io::{self, ErrorKind, Read};

// The most bytes of the input; what comes after them is not read.
const MOST_INPUT: u64 = 65536;

// One answer line. A question that is not known is answered by `?`.
fn answer(rt: &(impl Print + AllocGlobal), question: Question<'_>) -> io::Result<()> {
    match question.name() {
        "sum" => numbers::sum(rt, question),
        "fill" => numbers::fill(rt, question),
        "words" => numbers::words(rt, question),
        "hex" => numbers::hex(rt, question),
        "digits" => numbers::digits(rt, question),
        "be" => numbers::big_endian(rt, question),
        "var" => numbers::var(rt, question),
        "position" => positions::take_apart(rt, question),
        "make" => positions::make(rt, question),
        "bound" => positions::bound(rt, question),
        "check" => positions::check(rt, question),
        "line" => lines::of_area(rt, question),
        "fields" => lines::fields(rt, question),
        "right" => lines::right(rt, question),
        "key" => keys::at(rt, question),
        "wellformed" => keys::well_formed(rt, question),
        "compare" => keys::compare(rt, question),
        _ => println!(rt; "?"),
    }
}

fn yes_or_no(holds: bool) -> &'static str {
    if holds { "yes" } else { "no" }
}

// A read or a write that fails is passed over: the input ends there, and the next answer is written all
// the same. Want of memory is not.
fn passed_over(done: io::Result<()>) -> io::Result<()> {
    match done {
        Err(e) if e.kind() == ErrorKind::OutOfMemory => Err(e),
        _ => Ok(()),
    }
}

// From line to line, which no range counts.
fn answer_all(rt: &(impl Print + AllocGlobal), questions: &[u8]) -> io::Result<()> {
    let mut at = 0;
    while at < questions.len() {
        passed_over(answer(rt, Question::new(script::line(questions, at))))?;
        at = script::next_line(questions, at);
    }
    Ok(())
}

fn main(rt: HostRuntime) -> io::Result<()> {
    let mut questions = Vec::new(rt.alloc());
    let mut input = rt.reader().take(MOST_INPUT);
    passed_over(input.read_to_end(&mut questions).map(|_| ()))?;
    answer_all(&rt, &questions)
}
