// A question: its name and its arguments.
use fletcher::Edition;
use key::Kind;
use std::alloc::{AllocError, Global};

// The most bytes of a byte string: more than a question of 4,000 characters has. Those after them are lost.
const MOST_BYTES: usize = 2048;

// The names of questions.
const NAMES: [&str; 17] = [
    "sum",
    "fill",
    "words",
    "hex",
    "digits",
    "be",
    "var",
    "position",
    "make",
    "bound",
    "check",
    "line",
    "fields",
    "right",
    "key",
    "wellformed",
    "compare",
];

#[derive(Clone, Copy)]
pub struct Question<'a> {
    line: &'a [u8],
}

impl<'a> Question<'a> {
    pub fn new(line: &'a [u8]) -> Self {
        Question { line }
    }

    // Its name; nothing where no question has it.
    pub fn name(self) -> &'static str {
        NAMES
            .into_iter()
            .find(|name| script::is(self.line, name.as_bytes()))
            .unwrap_or("")
    }

    // The number that word `k` is.
    pub fn number(self, k: usize) -> u64 {
        script::number(self.line, k, 16)
    }

    // Its low 32 bits.
    pub fn number32(self, k: usize) -> u32 {
        script::number32(self.line, k, 16)
    }

    // The edition that it names first: 2, or else 1.
    pub fn edition(self) -> Edition {
        match self.number(1) {
            2 => Edition::Second,
            _ => Edition::First,
        }
    }

    // The kind that it names first: 0, or else 1.
    pub fn kind(self) -> Kind {
        match self.number(1) {
            0 => Kind::Number,
            _ => Kind::Text,
        }
    }

    // The byte string that word `k` is.
    pub fn bytes(self, alloc: Global, k: usize) -> Result<Vec<u8>, AllocError> {
        let len = script::word(self.line, k).len() / 2;
        let mut bytes = vec![in alloc; 0; len.min(MOST_BYTES)]?;
        script::bytes(self.line, k, &mut bytes);
        Ok(bytes)
    }
}
