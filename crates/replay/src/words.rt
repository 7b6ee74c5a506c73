// The words of a line: the longest runs without a blank.
ghost use Rattle.std.specs.Prelude.{length};
ghost use Rattle.std.specs.Iterator.{at_most};

use crate::faults::BadLine;
use text::ByteSort;

// The words in what is left of a line.
#[derive(Clone, Copy)]
pub(crate) struct Words<'a> {
    rest: &'a [u8],
}

fn is_blank(byte: u8) -> bool {
    matches!(text::sort_of(byte), ByteSort::Blank)
}

impl<'a> Words<'a> {
    pub(crate) fn of(line: &'a [u8]) -> Self {
        Words { rest: line }
    }

    // The next word, where there is one.
    pub(crate) fn word(&mut self) -> Result<&'a [u8], BadLine> {
        self.next().ok_or(BadLine)
    }

    // The line has no word more.
    pub(crate) fn end(mut self) -> Result<(), BadLine> {
        match self.next() {
            None => Ok(()),
            Some(_) => Err(BadLine),
        }
    }

    // The only word left.
    pub(crate) fn only(mut self) -> Result<&'a [u8], BadLine> {
        let word = self.word()?;
        self.end()?;
        Ok(word)
    }
}

impl<'a> Iterator for Words<'a> {
    type Item = &'a [u8];

    ghost remaining = { λ s. at_most (length s.rest.now) };

    fn next(&mut self) -> Option<&'a [u8]> {
        let start = self.rest.iter().position(|byte| !is_blank(*byte))?;
        let from = &self.rest[start..];
        let more = from[1..].iter().take_while(|byte| !is_blank(**byte));
        let (word, rest) = from.split_at(1 + more.count());
        self.rest = rest;
        Some(word)
    }
}
