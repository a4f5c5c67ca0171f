// The file header's two copies.
ghost use Rattle.std.specs.Prelude.{◌≡◌, Some};
ghost use Rattle.chunk.specs.Image.{header_line};
ghost use Rattle.opening.specs.Opening.{format_right, copy_of, counting, header_of};

use chunk::{Reading, header_line};
use fletcher::Edition;
use line::Name;

// What a good file header copy says of the newest chunk.
#[derive(Clone, Copy, Debug, PartialEq, Eq)]
pub enum Copy {
    Plain,
    Names {
        block: u64,
        chunk: u64,
        version: u64,
    },
}

// Whether a file header says this format.
#[tactic(auto, unfolding(crate::specs::Opening::format_right))]
fn is_format(r: &Reading) -> bool
    ensures { result ≡ format_right (Some r.now) }
{
    r.says(Name::H, 2) && r.says(Name::BlockSize, 4096) && r.says(Name::Format, 1)
}

// The good copy that a file header's reading is: it names all of block, chunk and version, or none.
#[tactic(auto, unfolding(crate::specs::Opening::copy_of, crate::specs::Opening::names_all, crate::specs::Opening::names_any))]
fn copy_of(r: &Reading) -> Option<Copy>
    ensures { result ≡ copy_of (Some r.now) }
{
    if !is_format(r) {
        return None;
    }
    match (r.get(Name::Block), r.get(Name::Chunk), r.get(Name::Version)) {
        (Some(block), Some(chunk), Some(version)) => Some(Copy::Names {
            block,
            chunk,
            version,
        }),
        (None, None, None) => Some(Copy::Plain),
        _ => None,
    }
}

// The copy that counts: the larger version, none lowest, the first at a tie.
#[tactic(auto, unfolding(crate::specs::Opening::counting))]
fn counting_copy(a: Option<Copy>, b: Option<Copy>) -> Option<Copy>
    ensures { result ≡ counting a b }
{
    match (a, b) {
        (None, _) => b,
        (Some(Copy::Plain), Some(Copy::Names { .. })) => b,
        (Some(Copy::Names { version: v, .. }), Some(Copy::Names { version: w, .. })) => {
            if v < w { b } else { a }
        }
        _ => a,
    }
}

// The good copy in the block of that number.
#[tactic(auto, unfolding(crate::specs::Opening::copy_of, crate::specs::Opening::format_right))]
fn copy_at(image: &[u8], edition: Edition, copy: u32) -> Option<Copy>
    ensures { result ≡ copy_of (header_line image.now edition copy) }
{
    let r = header_line(image, edition, copy)?;
    copy_of(&r)
}

// The file header.
#[tactic(auto, unfolding(crate::specs::Opening::header_of))]
pub fn header_of(image: &[u8], edition: Edition) -> Option<Copy>
    ensures { result ≡ header_of image.now edition }
{
    counting_copy(copy_at(image, edition, 0), copy_at(image, edition, 1))
}
