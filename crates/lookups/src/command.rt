// A line of the input: a question, or what makes an image, with its arguments.

// The names of commands.
const NAMES: [&str; 11] = [
    "image", "like", "keep", "put", "cut", "edition", "open", "map", "root", "chunk", "page",
];

#[derive(Clone, Copy)]
pub struct Command<'a> {
    line: &'a [u8],
}

impl<'a> Command<'a> {
    pub fn new(line: &'a [u8]) -> Self {
        Command { line }
    }

    // Its name; nothing where no command has it.
    pub fn name(self) -> &'static str {
        NAMES
            .into_iter()
            .find(|name| script::is(self.line, name.as_bytes()))
            .unwrap_or("")
    }

    // Word number `k`, the name being 0.
    pub fn word(self, k: usize) -> &'a [u8] {
        script::word(self.line, k)
    }

    // The number that it is.
    pub fn number(self, k: usize) -> u64 {
        script::number(self.line, k, 10)
    }

    // Its low 32 bits.
    pub fn number32(self, k: usize) -> u32 {
        script::number32(self.line, k, 10)
    }

    // The bytes that it is, written to the start of `area`, as many as it has room for.
    pub fn bytes<'b>(self, k: usize, area: &'b mut [u8]) -> &'b [u8] {
        let n = script::bytes(self.line, k, area);
        &area[..n]
    }
}
