// Text for every reader, by document 01's "Reading wcsp": the sorts of bytes, tokens, numbers and names.
#![tactic(auto)]

mod bytes;
mod reading;
mod tokens;
mod words;

pub use bytes::sort_of;
pub use reading::{read_name, read_number};
pub use words::skip_blanks;

// A mark is none of the digits; a token that holds a bad byte is malformed.
#[derive(Clone, Copy, Debug, PartialEq, Eq)]
pub enum ByteSort {
    Blank,
    Digit,
    Mark,
    Bad,
}

// A number, where its token begins, and the place after it.
#[derive(Clone, Copy, Debug, PartialEq, Eq)]
pub struct Number {
    pub value: u32,
    pub start: usize,
    pub after: usize,
}

// The next token is not what was asked for; where it begins.
#[derive(Clone, Copy, Debug, PartialEq, Eq)]
pub struct Malformed {
    pub start: usize,
}
