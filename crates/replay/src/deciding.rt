// Calls that decide and take back.
use crate::faults::BadLine;
use crate::keeping::Desk;
use crate::numbers::number;
use crate::saying::Reply;
use crate::words::Words;

// `VARIABLE VALUE`, the rest of the line.
fn variable_and_value(mut words: Words) -> Result<(u8, u8), BadLine> {
    let variable = number(words.word()?)?;
    let value = number(words.only()?)?;
    Ok((variable, value))
}

// `pin VARIABLE VALUE`
pub(crate) fn pin(desk: &mut Desk, words: Words) -> Result<Reply, BadLine> {
    let (variable, value) = variable_and_value(words)?;
    Ok(desk.pin(variable, value).into())
}

// `ban VARIABLE VALUE`
pub(crate) fn ban(desk: &mut Desk, words: Words) -> Result<Reply, BadLine> {
    let (variable, value) = variable_and_value(words)?;
    Ok(desk.ban(variable, value).into())
}

// `back DEPTH`
pub(crate) fn take_back(desk: &mut Desk, words: Words) -> Result<Reply, BadLine> {
    let depth = number(words.only()?)?;
    Ok(desk.take_back(depth).into())
}
