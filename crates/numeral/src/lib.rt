// Numbers as the file writes them: hexadecimal digits, big-endian bytes, variable-size numbers.
#![tactic(auto)]

mod big_endian;
mod hex;
mod var;

pub use big_endian::{be16, be32, be64};
pub use hex::{Digits, hex_at, read_hex, write_hex};
pub use var::read_var;

// A number that was read at a place, and the place after it.
#[derive(Clone, Copy, Debug, PartialEq, Eq)]
pub struct Numeral {
    pub value: u64,
    pub next: usize,
}
