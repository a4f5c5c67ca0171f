// The Fletcher sums of a text, 16-bit words with the high byte first, in two editions.
#![tactic(auto)]

ghost use Rattle.std.specs.Prelude.{◌+◌, ◌*◌, ◌≤◌, ◌<◌, ◌≡◌, length, get_or, drop};
ghost use Rattle.fletcher.specs.Fletcher.{reduced, start, add_word, sums, fletcher_of};
ghost use Rattle.fletcher.specs.Plain.{added, both_reduced, Reduced, Fits, Within};

// Reduced sums stay below 2^32 while so many words are added; one more can take the second past it.
const MOST_WORDS: usize = 360;

// How an odd last byte counts: in the first edition not at all, in the second as the high half of a
// word whose low half is 0.
#[derive(Clone, Copy, Debug, PartialEq, Eq)]
pub enum Edition {
    First,
    Second,
}

// Both running sums.
#[derive(Clone, Copy, Debug, PartialEq, Eq)]
pub struct Sums {
    pub first: u32,
    pub second: u32,
}

// x modulo 65535, with 65535 for 0.
fn reduce(x: u64) -> u32
    ensures { result ≡ reduced x }
{
    let m = x % 65535;
    if m == 0 { 65535 } else { m as u32 }
}

impl Sums {
    // The sums before the first word.
    pub fn new() -> Self
        ensures { result ≡ start }
    {
        Sums {
            first: 65535,
            second: 65535,
        }
    }

    // Both sums after one word more.
    pub fn word(self, w: u16) -> Self
        ensures { result ≡ add_word self w }
    {
        let first = reduce(self.first as u64 + w as u64);
        let second = reduce(self.second as u64 + first as u64);
        Sums { first, second }
    }

    // Both sums after one word more, not reduced.
    fn plus(self, w: u16) -> Self
        requires { Fits (added self w) }
        ensures { result ≡ added self w }
    {
        let first = self.first + w as u32;
        let second = self.second + first;
        Sums { first, second }
    }

    // Both sums, reduced.
    fn reduced(self) -> Self
        ensures { result ≡ both_reduced self }
    {
        let first = reduce(self.first as u64);
        let second = reduce(self.second as u64);
        Sums { first, second }
    }

    // Both sums, reduced, after a block of at most 720 bytes. An odd last byte comes after 359 words at
    // most, so that there is room for it as one word more before the sums are reduced.
    fn after(self, edition: Edition, block: &[u8]) -> Self
        requires { Reduced self × (length block.now ≤ 720) }
        ensures sums { result ≡ sums edition self block.now }
        ensures reduced { Reduced result }
    {
        let (words, odd) = block.as_chunks::<2>();
        let mut t = self;
        for &word in words {
            t = t.plus(u16::from_be_bytes(word));
        }
        let Some(&byte) = odd.first() else {
            return t.reduced();
        };
        match edition {
            Edition::First => t.reduced(),
            Edition::Second => t.plus(byte as u16 * 256).reduced(),
        }
    }
}

// The sums of `text`.
pub fn sum_words(edition: Edition, text: &[u8]) -> Sums
    ensures { result ≡ sums edition start text.now }
{
    let mut t = Sums::new();
    for block in text.chunks(2 * MOST_WORDS) {
        t = t.after(edition, block);
    }
    t
}

// The value that the field `fletcher` has over `text`.
pub fn sum_text(edition: Edition, text: &[u8]) -> u64
    ensures { result ≡ fletcher_of edition text.now }
{
    let t = sum_words(edition, text);
    t.second as u64 * 65536 + t.first as u64
}
