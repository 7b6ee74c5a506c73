// Reading token by token: a reader carries the lent text together with its place in it.
ghost use Rattle.std.specs.Prelude.{◌≡◌, ◌+◌, ◌^◌, ◌<◌, length};
ghost use Rattle.text.specs.Words.{token_start, token_at};
ghost use Rattle.text.specs.Tokens.{ReadsNumber, ReadsName};

use crate::tokens::Token;
use crate::words::{skip_blanks, token_at};
use crate::{Malformed, Number};

#[derive(Clone, Copy)]
pub struct Reader<'a> {
    text: &'a [u8],
    at: usize,
}

impl<'a> Reader<'a> {
    // The next token; an empty one where none is left.
    #[tactic(auto, using(crate::proofs::Places::end_fits))]
    fn next_token(self) -> Token<'a>
        ensures begins { result.start ≡ token_start self.entry.text.now self.entry.at }
        ensures bytes { result.bytes.now ≡ token_at self.entry.text.now (token_start self.entry.text.now self.entry.at) }
        ensures fits { result.start + length result.bytes.now < 2 ^ 64 }
    {
        let start = skip_blanks(self.text, self.at);
        Token {
            bytes: token_at(self.text, start),
            start,
        }
    }

    // The next token, as a number.
    #[tactic(auto, unfolding(crate::specs::Tokens::number_at, crate::specs::Words::token_start))]
    pub fn next_number(self) -> Result<Number, Malformed>
        ensures { ReadsNumber self.entry.text.now self.entry.at result }
    {
        self.next_token().number()
    }

    // The next token, as a name: the place after it.
    #[tactic(auto, unfolding(crate::specs::Tokens::name_at, crate::specs::Words::token_start))]
    pub fn next_name(self) -> Result<usize, Malformed>
        ensures { ReadsName self.entry.text.now self.entry.at result }
    {
        self.next_token().name()
    }
}

// The next token from `at` on, as a number.
pub fn read_number(text: &[u8], at: usize) -> Result<Number, Malformed>
    ensures { ReadsNumber text.now at result }
{
    Reader { text, at }.next_number()
}

// The next token from `at` on, as a name: the place after it.
pub fn read_name(text: &[u8], at: usize) -> Result<usize, Malformed>
    ensures { ReadsName text.now at result }
{
    Reader { text, at }.next_name()
}
