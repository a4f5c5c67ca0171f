// Questions about sums and about numbers as the file writes them.
use crate::question::Question;
use fletcher::Sums;
use std::io;

// `sum EDITION BYTES`: the fletcher value.
pub fn sum(rt: &(impl Print + AllocGlobal), question: Question<'_>) -> io::Result<()> {
    let text = question.bytes(rt.alloc(), 2)?;
    let sum = fletcher::sum_text(question.edition(), &text);
    println!(rt; "{sum:x}")
}

// `fill EDITION BYTE COUNT`: the fletcher value of a text of so many times the byte, at most 65,536.
pub fn fill(rt: &(impl Print + AllocGlobal), question: Question<'_>) -> io::Result<()> {
    let byte = (question.number(2) % 256) as u8;
    let count = question.number(3).min(65536) as usize;
    let text = vec![in rt.alloc(); byte; count]?;
    let sum = fletcher::sum_text(question.edition(), &text);
    println!(rt; "{sum:x}")
}

// `words BYTE COUNT`: the value of the words of such a text, from sums that are taken a word at a time.
pub fn words(rt: &impl Print, question: Question<'_>) -> io::Result<()> {
    let byte = question.number(1) % 256;
    let word = (byte * 257) as u16;
    let mut sums = Sums::new();
    for _ in 0..question.number(2) / 2 {
        sums = sums.word(word);
    }
    let value = sums.second as u64 * 65536 + sums.first as u64;
    println!(rt; "{value:x}")
}

// `hex BYTES`: the number that the text is.
pub fn hex(rt: &(impl Print + AllocGlobal), question: Question<'_>) -> io::Result<()> {
    let text = question.bytes(rt.alloc(), 1)?;
    match numeral::read_hex(&text) {
        Some(value) => println!(rt; "{value:x}"),
        None => println!(rt; "bad"),
    }
}

// `digits NUMBER`: the number as a text.
pub fn digits(rt: &impl Print, question: Question<'_>) -> io::Result<()> {
    let digits = numeral::write_hex(question.number(1));
    for byte in digits.bytes.iter().skip(digits.start) {
        print!(rt; "{byte:02x}")?;
    }
    println!(rt;)
}

// `be WIDTH AT BYTES`: the big-endian number, 0 where its bytes do not all stand there.
pub fn big_endian(rt: &(impl Print + AllocGlobal), question: Question<'_>) -> io::Result<()> {
    let at = question.number(2) as usize;
    let bytes = question.bytes(rt.alloc(), 3)?;
    let value = match question.number(1) {
        2 => numeral::be16(&bytes, at) as u64,
        4 => numeral::be32(&bytes, at) as u64,
        _ => numeral::be64(&bytes, at),
    };
    println!(rt; "{value:x}")
}

// `var LIMIT AT BYTES`: the variable-size number, and the place after it.
pub fn var(rt: &(impl Print + AllocGlobal), question: Question<'_>) -> io::Result<()> {
    let limit = question.number(1);
    let at = question.number(2) as usize;
    let bytes = question.bytes(rt.alloc(), 3)?;
    match numeral::read_var(&bytes, at, limit) {
        Some(n) => println!(rt; "{:x} {:x}", n.value, n.next),
        None => println!(rt; "bad"),
    }
}
