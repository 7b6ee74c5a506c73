// Document 01's table of refusals, with their numbers. A call answers `Ok`, or `Err` with the refusal.
#![tactic(auto)]

ghost use Rattle.std.specs.Prelude.{Some};
ghost use Rattle.refusals.specs.Numbers.{IsNumberOf, printed};

use std::error::Error;
use std::fmt;

#[derive(Clone, Copy, Debug, PartialEq, Eq)]
pub enum Refusal {
    NoSuchVariable,
    VariableTwice,
    WrongLength,
    OutOfRange,
    TupleTwice,
    Full,
    Malformed,
    NotLeft,
    TooManyDecisions,
    TooDeep,
    ShortBuffer,
    NoObjective,
    Decided,
}

// Document 01's number of a refusal.
impl From<Refusal> for u8 {
    ghost from_gives = { IsNumberOf };

    fn from(refusal: Refusal) -> u8 {
        match refusal {
            Refusal::NoSuchVariable => 1,
            Refusal::VariableTwice => 2,
            Refusal::WrongLength => 3,
            Refusal::OutOfRange => 4,
            Refusal::TupleTwice => 5,
            Refusal::Full => 6,
            Refusal::Malformed => 7,
            Refusal::NotLeft => 8,
            Refusal::TooManyDecisions => 9,
            Refusal::TooDeep => 10,
            Refusal::ShortBuffer => 11,
            Refusal::NoObjective => 12,
            Refusal::Decided => 13,
        }
    }
}

// A refusal is printed as its number.
impl fmt::Display for Refusal {
    ghost output = { λ refusal. Some (printed refusal) };

    fn fmt<W: fmt::Write>(&self, f: &mut fmt::Formatter<W>) -> fmt::Result {
        write!(f, "{}", u8::from(*self))
    }
}

impl Error for Refusal {}
