// The image, its lines, and when a chunk stands at a block.
#![tactic(auto)]

mod image;

ghost use Rattle.std.specs.Prelude.{◌+◌, ◌^◌, ◌<◌, ◌≤◌, ◌≡◌, option_copied, Some};
ghost use Rattle.chunk.specs.Chunk.{told, footer_of, footed, stands_at, said_at, kept, has_id};

use fletcher::Edition;
pub use image::{Reading, blocks_in, chunk_line, footer_line, header_line, right_blocks, says};
use line::Name;
use position::Position;

// A chunk that stands. `block` and `len` count blocks; `first` is the byte of the chunk at which its
// pages may begin.
#[derive(Clone, Copy, Debug, PartialEq, Eq)]
pub struct Chunk {
    pub id: u32,
    pub block: u32,
    pub len: u32,
    pub first: u32,
    pub next: u64,
    pub root: Position,
    pub version: u64,
}

// The chunk that a header in block `b` says, if it has all the fields that are needed and fits the block
// of an image of so many blocks. Its pages begin after the header's newline.
#[tactic(auto, unfolding(crate::specs::Chunk::needed, crate::specs::Chunk::fitting))]
fn chunk_of(blocks: u32, b: u32, r: &Reading) -> Option<Chunk>
    requires inside { b ≤ blocks }
    requires small { r.now.newline < 1024 }
    ensures { result ≡ told blocks b (Some r.now) }
{
    let id = r.get(Name::Chunk)?;
    let block = r.get(Name::Block)?;
    let len = r.get(Name::Len)?;
    let next = r.get(Name::Next)?;
    // `pages` is needed too; opening makes nothing of its value.
    let _pages = r.get(Name::Pages)?;
    let root = r.get(Name::Root)?;
    let version = r.get(Name::Version)?;
    if 67108864 <= id || block != b as u64 {
        return None;
    }
    let room = (blocks - b) as u64;
    if len < 1 || room < len {
        return None;
    }
    Some(Chunk {
        id: id as u32,
        block: b,
        len: len as u32,
        first: r.newline as u32 + 1,
        next,
        root: Position { bits: root },
        version,
    })
}

// Whether a footer's reading, which may be none, is the footer of the chunk.
pub fn is_footer(c: Chunk, r: Option<&Reading>) -> bool
    ensures { result ≡ footer_of c (option_copied r.entry) }
{
    let id = c.id as u64;
    let block = c.block as u64;
    says(r, Name::Chunk, id) && says(r, Name::Block, block) && says(r, Name::Version, c.version)
}

// The chunk, if its footer stands where it ends.
fn with_footer(image: &[u8], edition: Edition, c: Chunk) -> Option<Chunk>
    requires { c.block + c.len < 2 ^ 32 }
    ensures { result ≡ footed image.now edition c }
{
    let r = footer_line(image, edition, c.block + c.len);
    is_footer(c, r.as_ref()).then_some(c)
}

// The chunk that the header in block `b` says, whatever its footer is.
#[tactic(auto, using(crate::specs::ChunkLaws::said_unread))]
pub fn said_at(image: &[u8], b: u64) -> Option<Chunk>
    ensures { result ≡ said_at image.now b }
{
    let blocks = right_blocks(image)?;
    if b < 2 || blocks as u64 <= b {
        return None;
    }
    let block = b as u32;
    let r = chunk_line(image, block)?;
    chunk_of(blocks, block, &r)
}

// The chunk that stands at block `b`.
#[tactic(auto, unfolding(crate::specs::Chunk::stands_at))]
pub fn stands_at(image: &[u8], edition: Edition, b: u64) -> Option<Chunk>
    ensures { result ≡ stands_at image.now edition b }
{
    let c = said_at(image, b)?;
    with_footer(image, edition, c)
}

// The chunk that stands, if it has the id.
pub fn with_id(s: Option<Chunk>, id: u64) -> Option<Chunk>
    ensures { result ≡ kept (has_id id) s }
{
    s.filter(|c| c.id as u64 == id)
}
