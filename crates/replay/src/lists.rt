// Lists of numbers in a line.
ghost use Rattle.std.specs.Prelude.{IfOk, ◌≡◌, ◌≤◌, length};

use crate::faults::BadLine;
use crate::numbers::number;
use crate::words::Words;
use std::num::ParseIntError;
use std::str::FromStr;

// More numbers than a line can hold, each with a blank before it.
const NUMBERS: usize = 16_384;

// Room for a list of numbers.
pub(crate) fn room<T: Copy>(blank: T) -> [T; NUMBERS]
    ensures { 16384 ≡ length result }
{
    [blank; NUMBERS]
}

// The word that ends a list which is not the line's last.
pub(crate) const COLON: Option<&[u8]> = Some(b":");

// Reads numbers up to the word `end`, or to the line's end, and hands back the part of the room that they fill.
pub(crate) fn read<'r, T: FromStr<Err = ParseIntError> + Drop>(
    words: &mut Words,
    end: Option<&[u8]>,
    room: &'r mut [T],
) -> Result<&'r [T], BadLine> {
    let count = fill(words, end, room)?;
    let (list, _) = room.split_at(count);
    Ok(list)
}

// Puts the same numbers at the room's start, and answers how many they are.
fn fill<T: FromStr<Err = ParseIntError> + Drop>(
    words: &mut Words,
    end: Option<&[u8]>,
    room: &mut [T],
) -> Result<usize, BadLine>
    ensures { IfOk result (λ count. count ≤ length room.new) }
{
    for (count, place) in room.iter_mut().enumerate() {
        let word = words.next();
        if word == end {
            return Ok(count);
        }
        *place = number(word.ok_or(BadLine)?)?;
    }
    Err(BadLine)
}
