// Opening a store: from any bytes to the newest chunk.
#![tactic(auto)]

mod header;

ghost use Rattle.std.specs.Prelude.{◌≡◌};
ghost use Rattle.chunk.specs.Image.{blocks_in};
ghost use Rattle.opening.specs.Opening.{header_start, footer_start, higher, successor, chain, opened};

use chunk::{Chunk, footer_line, is_footer, right_blocks, said_at, stands_at, with_id};
use fletcher::Edition;
pub use header::{Copy, header_of};
use line::Name;
use refusal::Refusal;

// How an image is opened, as a caller says it, by the C interface's number: 1 or 2 is an edition, any
// other is none.
#[repr(C)]
#[derive(Clone, Copy, Debug, PartialEq, Eq)]
pub struct View {
    pub edition: u64,
}

// A store that is open: the edition in which its lines are judged, and its newest chunk, which says
// where chunks stand.
#[derive(Clone, Copy, Debug, PartialEq, Eq)]
pub struct Store {
    pub edition: Edition,
    pub newest: Chunk,
}

// The chunk standing at the file header's block with the header's chunk id, if named.
#[tactic(auto, unfolding(crate::specs::Opening::header_start))]
fn header_start(image: &[u8], edition: Edition, copy: Copy) -> Option<Chunk>
    ensures { result ≡ header_start image.now edition copy }
{
    match copy {
        Copy::Names { block, chunk, .. } => with_id(stands_at(image, edition, block), chunk),
        Copy::Plain => None,
    }
}

// The chunk that the image's last footer names, if it ends where the image ends.
#[tactic(auto, using(chunk::specs::ChunkLaws::stands_unsaid), unfolding(crate::specs::Opening::footer_start))]
fn footer_start(image: &[u8], edition: Edition, blocks: u32) -> Option<Chunk>
    requires { blocks ≡ blocks_in image.now }
    ensures { result ≡ footer_start image.now edition }
{
    let r = footer_line(image, edition, blocks)?;
    let block = r.get(Name::Block)?;
    let c = said_at(image, block)?;
    let end = c.block as u64 + c.len as u64;
    (end == blocks as u64 && is_footer(c, Some(&r))).then_some(c)
}

// The start with the higher version, the lower block at a tie.
#[tactic(auto, unfolding(crate::specs::Opening::higher))]
fn higher_start(a: Option<Chunk>, b: Option<Chunk>) -> Option<Chunk>
    ensures { result ≡ higher a b }
{
    let Some(x) = a else {
        return b;
    };
    let Some(y) = b else {
        return a;
    };
    if x.version < y.version || (x.version == y.version && y.block < x.block) {
        b
    } else {
        a
    }
}

// The chunk at `next`, if it has a strictly higher version.
#[tactic(auto, unfolding(crate::specs::Opening::successor))]
fn successor_of(image: &[u8], edition: Edition, c: Chunk) -> Option<Chunk>
    ensures { result ≡ successor image.now edition c }
{
    stands_at(image, edition, c.next).filter(|d| c.version < d.version)
}

// The newest chunk of the chain that begins at `c`. Versions rise, so no block comes twice.
fn follow(image: &[u8], edition: Edition, c: Chunk) -> Chunk
    ensures { result ≡ chain image.now edition (blocks_in image.now) c }
{
    let mut newest = c;
    while let Some(d) = successor_of(image, edition, newest) {
        newest = d;
    }
    newest
}

// The newest chunk of the image in an edition, or the refusal 2, 3 or 4.
#[tactic(auto, using(chunk::specs::ImageLaws::right_some), unfolding(crate::specs::Opening::opened, crate::specs::Opening::newest_from))]
pub fn open(image: &[u8], edition: Edition) -> Result<Chunk, Refusal>
    ensures { result ≡ opened image.now edition }
{
    let blocks = right_blocks(image).ok_or(Refusal::ImageSize)?;
    let copy = header_of(image, edition).ok_or(Refusal::NoHeader)?;
    let by_header = header_start(image, edition, copy);
    let by_footer = footer_start(image, edition, blocks);
    let start = higher_start(by_header, by_footer).ok_or(Refusal::NoStart)?;
    Ok(follow(image, edition, start))
}
