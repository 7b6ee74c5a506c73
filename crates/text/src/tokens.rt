// What tokens say.
ghost use Rattle.std.specs.Prelude.{◌≡◌, ◌+◌, ◌^◌, ◌<◌, length};
ghost use Rattle.std.specs.List.{list_all};
ghost use Rattle.text.specs.Bytes.{within, is_visible};
ghost use Rattle.text.specs.Tokens.{number_in, name_in};

use crate::bytes::{is_digit, is_visible};
use crate::{Malformed, Number};

const MOST_DIGITS: usize = 10;

const LONGEST_NAME: usize = 64;

// Whether the token has 1 to `most` bytes.
fn has_one_to(token: &[u8], most: usize) -> bool
    ensures { result ≡ within 1 most (length token.now) }
{
    !token.is_empty() && token.len() <= most
}

fn all_visible(token: &[u8]) -> bool
    ensures { result ≡ list_all is_visible token.now }
{
    token.iter().all(|byte| is_visible(*byte))
}

// The bytes of a token, and where it begins.
#[derive(Clone, Copy)]
pub(crate) struct Token<'a> {
    pub(crate) bytes: &'a [u8],
    pub(crate) start: usize,
}

impl<'a> Token<'a> {
    // What the token says as a number.
    #[tactic(auto, using(crate::proofs::Sorts::digit_range), unfolding(crate::specs::Tokens::number_in, crate::specs::Tokens::is_number, crate::specs::Tokens::value_of))]
    pub(crate) fn number(self) -> Result<Number, Malformed>
        requires { self.start + length self.bytes.now < 2 ^ 64 }
        ensures { result ≡ number_in self.entry.bytes.now self.entry.start }
    {
        let start = self.start;
        let malformed = Malformed { start };
        if !has_one_to(self.bytes, MOST_DIGITS) {
            return Err(malformed);
        }
        let mut value: u64 = 0;
        for byte in self.bytes {
            if !is_digit(*byte) {
                return Err(malformed);
            }
            value = value * 10 + (*byte - 48) as u64;
        }
        let value = u32::try_from(value).map_err(|_| malformed)?;
        let after = start + self.bytes.len();
        Ok(Number {
            value,
            start,
            after,
        })
    }

    // What the token says as a name: the place after it.
    #[tactic(auto, unfolding(crate::specs::Tokens::name_in, crate::specs::Tokens::is_name))]
    pub(crate) fn name(self) -> Result<usize, Malformed>
        requires { self.start + length self.bytes.now < 2 ^ 64 }
        ensures { result ≡ name_in self.entry.bytes.now self.entry.start }
    {
        if has_one_to(self.bytes, LONGEST_NAME) && all_visible(self.bytes) {
            Ok(self.start + self.bytes.len())
        } else {
            Err(Malformed { start: self.start })
        }
    }
}
