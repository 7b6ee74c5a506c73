// The lines that answer the calls of a script.
use refusals::Refusal;
use std::fmt;

// The most places of a buffer that is lent for solving; more than the 32 that solving may write are all the same.
pub(crate) const PLACES: usize = 64;

// What a call answers.
#[derive(Clone, Copy)]
pub(crate) enum Reply {
    Done,
    Refused(Refusal),
    // the set of values
    Left(u64),
    // so many values, at the places' start
    Found([u8; PLACES], usize),
    Inconsistent,
    First,
    Second,
    Empty,
}

impl From<Result<(), Refusal>> for Reply {
    fn from(answer: Result<(), Refusal>) -> Self {
        match answer {
            Ok(()) => Reply::Done,
            Err(refusal) => Reply::Refused(refusal),
        }
    }
}

impl From<Result<u64, Refusal>> for Reply {
    fn from(left: Result<u64, Refusal>) -> Self {
        match left {
            Ok(values) => Reply::Left(values),
            Err(refusal) => Reply::Refused(refusal),
        }
    }
}

impl fmt::Display for Reply {
    fn fmt<W: fmt::Write>(&self, f: &mut fmt::Formatter<W>) -> fmt::Result {
        match self {
            Reply::Done => f.write_str("ok"),
            Reply::Refused(refusal) => write!(f, "refused {refusal}"),
            Reply::Left(mask) => write!(f, "left {mask:016x}"),
            Reply::Found(places, count) => {
                f.write_str("found")?;
                for value in places.iter().take(*count) {
                    write!(f, " {value}")?;
                }
                Ok(())
            }
            Reply::Inconsistent => f.write_str("inconsistent"),
            Reply::First => f.write_str("first"),
            Reply::Second => f.write_str("second"),
            Reply::Empty => f.write_str("empty"),
        }
    }
}
