// Calls that change nothing: the values left, solving, and comparing profiles.
use crate::faults::BadLine;
use crate::keeping::Desk;
use crate::lists::{self, COLON};
use crate::numbers::number;
use crate::saying::{PLACES, Reply};
use crate::words::Words;
use leximin::Solved;

// `left VARIABLE`
pub(crate) fn values_left(desk: &Desk, words: Words) -> Result<Reply, BadLine> {
    let variable = number(words.only()?)?;
    Ok(decide::values_left(desk.state, variable).into())
}

// `solve LENGTH`
pub(crate) fn solve(desk: &Desk, words: Words) -> Result<Reply, BadLine> {
    let length: usize = number(words.only()?)?;
    let mut buffer = [0; PLACES];
    let solved = leximin::solve(desk.state, &mut buffer[..length.min(PLACES)]);
    Ok(match solved {
        Ok(Solved::Found) => Reply::Found(buffer, desk.state.variables),
        Ok(Solved::Inconsistent) => Reply::Inconsistent,
        Err(refusal) => Reply::Refused(refusal),
    })
}

// `compare NUMBERS.. : NUMBERS..`
pub(crate) fn compare(mut words: Words) -> Result<Reply, BadLine> {
    let mut first = lists::room(0);
    let first = lists::read(&mut words, COLON, &mut first)?;
    let mut second = lists::room(0);
    let second = lists::read(&mut words, None, &mut second)?;
    Ok(better(first, second))
}

// Which of the two profiles is the one handed back.
fn better(first: &[u8], second: &[u8]) -> Reply {
    if profile::better_of(first, second).is_empty() {
        Reply::Empty
    } else if profile::is_better(second, first) {
        Reply::Second
    } else {
        Reply::First
    }
}
