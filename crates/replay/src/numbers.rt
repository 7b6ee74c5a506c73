// What words say as numbers.
use crate::faults::BadLine;
use std::num::ParseIntError;
use std::str::{self, FromStr};

// `parse` would take a plus before the digits; a script has none.
fn text_of(word: &[u8]) -> Result<&str, BadLine> {
    if word.starts_with(b"+") {
        return Err(BadLine);
    }
    Ok(str::from_utf8(word)?)
}

// The number that decimal digits say, where its type holds it; after a minus or not, where the type has a sign.
pub(crate) fn number<T: FromStr<Err = ParseIntError>>(word: &[u8]) -> Result<T, BadLine> {
    Ok(text_of(word)?.parse()?)
}

// The set that hexadecimal digits say, where 64 bits hold it.
pub(crate) fn mask(word: &[u8]) -> Result<u64, BadLine> {
    Ok(u64::from_str_radix(text_of(word)?, 16)?)
}
