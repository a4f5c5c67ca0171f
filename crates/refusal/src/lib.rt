// Document 01's table of refusals.
#![tactic(auto)]

ghost use Rattle.std.specs.Prelude.{◌≡◌, ok_or};
ghost use Rattle.refusal.specs.Refusal.{number_of, refusal_of};

use std::error::Error;
use std::fmt;

#[derive(Clone, Copy, Debug, PartialEq, Eq, Hash)]
pub enum Refusal {
    Argument,
    ImageSize,
    NoHeader,
    NoStart,
    NotLocated,
    NinthQuestion,
    Place,
    CheckValue,
    MapOrType,
    Contents,
    TooDeep,
    Unsound,
    NoSuchName,
    NotANumber,
    Index,
    AreaTooSmall,
}

impl Refusal {
    // Its number in the table.
    pub fn number(self) -> u8
        ensures { result ≡ number_of self }
    {
        match self {
            Refusal::Argument => 1,
            Refusal::ImageSize => 2,
            Refusal::NoHeader => 3,
            Refusal::NoStart => 4,
            Refusal::NotLocated => 5,
            Refusal::NinthQuestion => 6,
            Refusal::Place => 7,
            Refusal::CheckValue => 8,
            Refusal::MapOrType => 9,
            Refusal::Contents => 10,
            Refusal::TooDeep => 11,
            Refusal::Unsound => 12,
            Refusal::NoSuchName => 13,
            Refusal::NotANumber => 14,
            Refusal::Index => 15,
            Refusal::AreaTooSmall => 16,
        }
    }
}

// A number that is none of the table's.
#[derive(Clone, Copy, Debug, PartialEq, Eq, Hash)]
pub struct NotInTable;

impl TryFrom<u32> for Refusal {
    type Error = NotInTable;

    ghost try_from_gives = { λ n r. r ≡ ok_or (refusal_of n) (record {}) };

    fn try_from(number: u32) -> Result<Self, NotInTable> {
        match number {
            1 => Ok(Refusal::Argument),
            2 => Ok(Refusal::ImageSize),
            3 => Ok(Refusal::NoHeader),
            4 => Ok(Refusal::NoStart),
            5 => Ok(Refusal::NotLocated),
            6 => Ok(Refusal::NinthQuestion),
            7 => Ok(Refusal::Place),
            8 => Ok(Refusal::CheckValue),
            9 => Ok(Refusal::MapOrType),
            10 => Ok(Refusal::Contents),
            11 => Ok(Refusal::TooDeep),
            12 => Ok(Refusal::Unsound),
            13 => Ok(Refusal::NoSuchName),
            14 => Ok(Refusal::NotANumber),
            15 => Ok(Refusal::Index),
            16 => Ok(Refusal::AreaTooSmall),
            _ => Err(NotInTable),
        }
    }
}

impl fmt::Display for Refusal {
    fn fmt<W: fmt::Write>(&self, f: &mut fmt::Formatter<W>) -> fmt::Result {
        write!(f, "refused {}", self.number())
    }
}

impl Error for Refusal {}
