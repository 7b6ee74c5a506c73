// Why a script is not run to its end.
use std::fmt;
use std::num::ParseIntError;
use std::str::Utf8Error;

// The line is no call.
#[derive(Clone, Copy)]
pub(crate) struct BadLine;

impl From<Utf8Error> for BadLine {
    fn from(_: Utf8Error) -> Self {
        BadLine
    }
}

impl From<ParseIntError> for BadLine {
    fn from(_: ParseIntError) -> Self {
        BadLine
    }
}

#[derive(Clone, Copy)]
pub(crate) enum Fault {
    TooLong,
    // where the line begins that is no call
    BadScript { at: usize },
}

impl fmt::Display for Fault {
    fn fmt<W: fmt::Write>(&self, f: &mut fmt::Formatter<W>) -> fmt::Result {
        match *self {
            Fault::TooLong => write!(f, "too long"),
            Fault::BadScript { at } => write!(f, "bad script at {at}"),
        }
    }
}
