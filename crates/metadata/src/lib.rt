// What the metadata's answers say: of a chunk, where it stands; of a map, its id and its root. And one
// page of a descent, which asks the metadata or any other map.
#![tactic(auto)]

mod descent;
mod keys;

ghost use Rattle.std.specs.Prelude.{◌≡◌};
ghost use Rattle.metadata.specs.Answers.{place_of, standing_by, id_of, root_of, root_said, location_by, located_by, value_by, id_by, root_by};

use chunk::Chunk;
pub use descent::{Advance, Step, advance_at};
use fletcher::Edition;
pub use keys::{KeyBytes, NAME, chunk_key, name_key, root_key};
use line::Name;
use page::Place;
use position::Position;
use refusal::Refusal;
use text::Spot;

// Where a chunk is, and the questions that locating it takes.
#[derive(Clone, Copy, Debug, PartialEq, Eq)]
pub struct Location {
    pub place: Place,
    pub need: u32,
}

// What a lookup found, if there is an entry: the value by place and length; and the questions that the
// lookup takes.
#[derive(Clone, Copy, Debug, PartialEq, Eq)]
pub struct Answer {
    pub value: Option<Spot>,
    pub need: u32,
}

// What a page's rules need of the chunk that it stands in.
pub fn place_of(c: Chunk) -> Place
    ensures { result ≡ place_of c }
{
    Place {
        block: c.block,
        len: c.len,
        first: c.first,
    }
}

// Chunk `n` where the metadata value at a spot says that it stands.
fn standing_by(image: &[u8], edition: Edition, n: u32, spot: Spot) -> Option<Chunk>
    ensures { result ≡ standing_by image.now edition n spot }
{
    let fields = line::read_fields(spot.bytes(image))?;
    let block = fields.get(Name::Block)?;
    chunk::with_id(chunk::stands_at(image, edition, block), n as u64)
}

// Where chunk `n` stands by the answer of its lookup; `need` is what the lookup took.
pub fn location_by(
    image: &[u8],
    edition: Edition,
    n: u32,
    f: Result<Answer, Refusal>,
) -> Result<Location, Refusal>
    ensures { result ≡ location_by image.now edition n f }
{
    let answer = f?;
    let Some(spot) = answer.value else {
        return Err(Refusal::NotLocated);
    };
    let Some(c) = standing_by(image, edition, n, spot) else {
        return Err(Refusal::NotLocated);
    };
    Ok(Location {
        place: place_of(c),
        need: answer.need,
    })
}

// The place alone.
pub fn located_by(l: Result<Location, Refusal>) -> Result<Place, Refusal>
    ensures { result ≡ located_by l }
{
    Ok(l?.place)
}

// The value alone.
pub fn value_by(f: Result<Answer, Refusal>) -> Result<Option<Spot>, Refusal>
    ensures { result ≡ value_by f }
{
    Ok(f?.value)
}

// An id is 1 to 2^31-1.
fn id_of(n: Option<u64>) -> Result<u32, Refusal>
    ensures { result ≡ id_of n }
{
    let Some(v) = n else {
        return Err(Refusal::NotANumber);
    };
    if v < 1 {
        return Err(Refusal::NotANumber);
    }
    if 2147483647 < v {
        return Err(Refusal::NotANumber);
    }
    Ok(v as u32)
}

// The id that the metadata's answer gives.
pub fn id_by(image: &[u8], f: Result<Answer, Refusal>) -> Result<u32, Refusal>
    ensures { result ≡ id_by image.now f }
{
    match f?.value {
        Some(spot) => id_of(numeral::read_hex(spot.bytes(image))),
        None => Err(Refusal::NoSuchName),
    }
}

// Any number of 64 bits is a position.
fn root_of(n: Option<u64>) -> Result<Position, Refusal>
    ensures { root_said result ≡ root_of n }
{
    match n {
        Some(bits) => Ok(Position { bits }),
        None => Err(Refusal::NotANumber),
    }
}

// The root that the metadata's answer gives; without an entry the map is empty.
pub fn root_by(image: &[u8], f: Result<Answer, Refusal>) -> Result<Position, Refusal>
    ensures { root_said result ≡ root_by image.now f }
{
    match f?.value {
        Some(spot) => root_of(numeral::read_hex(spot.bytes(image))),
        None => Ok(Position {
            bits: Position::EMPTY,
        }),
    }
}
