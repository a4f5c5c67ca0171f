// One field of a line: a name of 1 to 16 letters, a colon, and digits.
ghost use Rattle.std.specs.Prelude.{◌≡◌};
ghost use Rattle.line.specs.Field.{part_at};

// A field by places of its line: where its colon stands, its value, and where it ends.
#[derive(Clone, Copy, Debug, PartialEq, Eq)]
pub struct Field {
    pub colon: usize,
    pub value: u64,
    pub end: usize,
}

// The field that stands between `from` and the next comma or the line's end.
pub fn field_at(line: &[u8], from: usize) -> Option<Field>
    ensures { result ≡ part_at line.now from }
{
    let colon = text::letters_end(line, from);
    let n = colon - from;
    if n < 1 || 16 < n {
        return None;
    }
    if line.len() <= colon {
        return None;
    }
    if line[colon] != b':' {
        return None;
    }
    let digits = numeral::hex_at(line, colon + 1)?;
    let end = digits.next;
    if end < line.len() && line[end] != b',' {
        return None;
    }
    Some(Field {
        colon,
        value: digits.value,
        end,
    })
}
