// The image, its blocks, and the three kinds of line that opening reads of it.
ghost use Rattle.std.specs.Prelude.{◌*◌, ◌≤◌, ◌≡◌, length, option_copied, Some};
ghost use Rattle.line.specs.Fields.{text_of};
ghost use Rattle.line.specs.Reading.{value_of};
ghost use Rattle.chunk.specs.Image.{block_bytes, blocks_in, right_blocks, is_value, says, plain, plain_line, summed_line, header_line, chunk_line, footer_line};

use fletcher::Edition;
use line::{Fields, Line, Name};

// What a line says, and where its newline stands in its area.
#[derive(Clone, Copy, Debug, PartialEq, Eq)]
pub struct Reading {
    pub fields: Fields,
    pub newline: usize,
}

impl Reading {
    // The value of a name, if it is given.
    pub fn get(&self, name: Name) -> Option<u64>
        ensures { result ≡ value_of self.now.fields (text_of name) }
    {
        self.fields.get(name)
    }

    // Whether the name is given, with the value `v`.
    pub fn says(&self, name: Name, v: u64) -> bool
        ensures { result ≡ is_value (value_of self.now.fields (text_of name)) v }
    {
        self.get(name) == Some(v)
    }
}

// The same of a reading that may be none, which gives no name.
pub fn says(r: Option<&Reading>, name: Name, v: u64) -> bool
    ensures { result ≡ says (option_copied r.entry) (text_of name) v }
{
    r.is_some_and(|r| r.says(name, v))
}

// The number of blocks of the image, if its size is right.
pub fn right_blocks(image: &[u8]) -> Option<u32>
    ensures { result ≡ right_blocks image.now }
{
    let blocks = image.len() / 4096;
    if blocks < 3 || 268435456 < blocks {
        return None;
    }
    Some(blocks as u32)
}

// The number of blocks of the image; 0 where its size is not right.
pub fn blocks_in(image: &[u8]) -> u32
    ensures { result ≡ blocks_in image.now }
{
    right_blocks(image).unwrap_or(0)
}

// Where block `b` starts. Blocks past 524287 start past 2^31 - 1.
fn start_of(b: u32) -> usize
    ensures { result ≡ b * block_bytes }
{
    b as usize * 4096
}

// What a line of the area says.
fn read_line(area: &[u8], l: Line) -> Option<Reading>
    requires { l.len ≤ length area.now }
    ensures { result ≡ plain area.now (Some l) }
{
    let fields = line::read_fields(&area[..l.len])?;
    Some(Reading {
        fields,
        newline: l.newline,
    })
}

// What the line of an area says.
fn plain_line(area: &[u8]) -> Option<Reading>
    ensures { result ≡ plain_line area.now }
{
    let l = line::line_of(area)?;
    read_line(area, l)
}

// The same, nothing where the line's sum is not right in the edition.
fn summed_line(edition: Edition, area: &[u8]) -> Option<Reading>
    ensures { result ≡ summed_line edition area.now }
{
    let l = line::line_of(area)?;
    if line::right_sum(edition, &area[..l.len]) {
        read_line(area, l)
    } else {
        None
    }
}

// File header copy `copy`, in the block of that number.
pub fn header_line(image: &[u8], edition: Edition, copy: u32) -> Option<Reading>
    ensures { result ≡ header_line image.now edition copy }
{
    summed_line(edition, text::bytes_at(image, start_of(copy), 4096))
}

// The chunk header in block `b`.
pub fn chunk_line(image: &[u8], b: u32) -> Option<Reading>
    ensures { result ≡ chunk_line image.now b }
{
    plain_line(text::bytes_at(image, start_of(b), 1024))
}

// The footer in the last 128 bytes before block `e`.
pub fn footer_line(image: &[u8], edition: Edition, e: u32) -> Option<Reading>
    ensures { result ≡ footer_line image.now edition e }
{
    let at = start_of(e).saturating_sub(128);
    summed_line(edition, text::bytes_at(image, at, 128))
}
