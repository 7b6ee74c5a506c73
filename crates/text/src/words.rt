// Where tokens begin and end.
ghost use Rattle.std.specs.Prelude.{◌≡◌, ◌≤◌, length, drop};
ghost use Rattle.text.specs.Words.{blanks, run, SkipsBlanks, token_at};

use crate::bytes::is_blank;

// What is left of the text from a place on; nothing behind its end.
fn rest_from(text: &[u8], at: usize) -> &[u8]
    ensures { result.now ≡ drop at text.now }
{
    text.get(at..).unwrap_or(&[])
}

// How many blanks the text begins with.
#[tactic(auto, unfolding(crate::specs::Words::blanks))]
fn blanks(text: &[u8]) -> usize
    ensures count { result ≡ blanks text.now }
    ensures within { result ≤ length text.now }
{
    text.iter().take_while(|byte| is_blank(**byte)).count()
}

// How many bytes it begins with that aren't blank.
#[tactic(auto, unfolding(crate::specs::Words::run))]
fn run(text: &[u8]) -> usize
    ensures count { result ≡ run text.now }
    ensures within { result ≤ length text.now }
{
    text.iter().take_while(|byte| !is_blank(**byte)).count()
}

// Where the next token from `at` on begins; the text's length where there is none.
#[tactic(auto, unfolding(crate::specs::Words::token_start))]
pub fn skip_blanks(text: &[u8], at: usize) -> usize
    ensures { SkipsBlanks text.now at result }
{
    at + blanks(rest_from(text, at))
}

// The token that begins at `start`; an empty part where there is none.
#[tactic(auto, unfolding(crate::specs::Words::token_at))]
pub(crate) fn token_at(text: &[u8], start: usize) -> &[u8]
    ensures { result.now ≡ token_at text.now start }
{
    let rest = rest_from(text, start);
    &rest[..run(rest)]
}
