// A page's position: 26 bits chunk id, 32 bits offset in the chunk, 5 bits length code, 1 bit type.
#![tactic(auto)]

ghost use Rattle.std.specs.Prelude.{◌≡◌};
ghost use Rattle.position.specs.Position.{chunk_of, offset_of, code_of, type_of, is_empty, made_of, bound_of, holds_length, folded, check_of};

#[derive(Clone, Copy, Debug, PartialEq, Eq)]
pub struct Position {
    pub bits: u64,
}

impl Position {
    pub const TYPE_BITS: u32 = 1;

    pub const CODE_BITS: u32 = 5;

    pub const OFFSET_BITS: u32 = 32;

    pub const CHUNK_BITS: u32 = 26;

    // The bits of the empty root, which is the empty map.
    pub const EMPTY: u64 = 0;

    // How many values a field has.
    const TYPES: u32 = 1 << Position::TYPE_BITS;

    const CODES: u32 = 1 << Position::CODE_BITS;

    const OFFSETS: u64 = 1 << Position::OFFSET_BITS;

    const CHUNKS: u32 = 1 << Position::CHUNK_BITS;

    // Where each field begins, as the number that its lowest bit counts for.
    const CODE_UNIT: u64 = 1 << Position::TYPE_BITS;

    const OFFSET_UNIT: u64 = Position::CODE_UNIT << Position::CODE_BITS;

    const CHUNK_UNIT: u64 = Position::OFFSET_UNIT << Position::OFFSET_BITS;

    // The position with these fields, or none where one is wider than its bits.
    pub fn make(chunk: u32, offset: u32, code: u32, inner: u32) -> Option<Position>
        ensures { result ≡ made_of chunk offset code inner }
    {
        if Position::CHUNKS <= chunk || Position::CODES <= code || Position::TYPES <= inner {
            return None;
        }
        let bits = chunk as u64 * Position::CHUNK_UNIT
            + offset as u64 * Position::OFFSET_UNIT
            + code as u64 * Position::CODE_UNIT
            + inner as u64;
        Some(Position { bits })
    }

    pub fn chunk(self) -> u32
        ensures { result ≡ chunk_of self.bits }
    {
        (self.bits / Position::CHUNK_UNIT) as u32
    }

    pub fn offset(self) -> u32
        ensures { result ≡ offset_of self.bits }
    {
        (self.bits / Position::OFFSET_UNIT % Position::OFFSETS) as u32
    }

    pub fn code(self) -> u32
        ensures { result ≡ code_of self.bits }
    {
        (self.bits / Position::CODE_UNIT % Position::CODES as u64) as u32
    }

    pub fn page_type(self) -> u32
        ensures { result ≡ type_of self.bits }
    {
        (self.bits % Position::TYPES as u64) as u32
    }

    pub fn is_empty(self) -> bool
        ensures { result ≡ is_empty self.bits }
    {
        self.bits == Position::EMPTY
    }
}

// The most bytes that a page may have under a length code; `None` where it sets no bound.
pub fn bound_of(code: u32) -> Option<u32>
    ensures { result ≡ bound_of code }
{
    if 31 <= code {
        return None;
    }
    Some((2 + code % 2) << (4 + code / 2))
}

// Whether a page's length is within its code's bound.
pub fn holds_length(code: u32, length: u32) -> bool
    ensures { result ≡ holds_length code length }
{
    bound_of(code).is_none_or(|most| length <= most)
}

// The upper half of a number xor its lower half.
fn fold(x: u32) -> u16
    ensures { result ≡ folded x }
{
    (x / 65536) as u16 ^ (x % 65536) as u16
}

// The check value of a page, as H2 writes it.
pub fn check_value(chunk: u32, offset: u32, length: u32) -> u16
    ensures { result ≡ check_of chunk offset length }
{
    fold(chunk) ^ fold(offset) ^ fold(length)
}
