// The first line of a file: name, numbers of variables, largest size, number of constraints, upper bound.
ghost use Rattle.reading.specs.Steps.{Comes};
ghost use Rattle.wcsp.specs.Files.{header};
ghost use Rattle.wcsp.specs.Steps.{Says};

use meaning::{RULES, VARIABLES};
use reading::{Read, Step, any_number, number_within, skip_name};
use refusals::Refusal;
use values::VALUES;

// What the first line says.
#[derive(Clone, Copy, Debug, PartialEq, Eq)]
pub(crate) struct Header {
    pub(crate) variables: usize,
    pub(crate) largest: usize,
    pub(crate) constraints: usize,
}

pub(crate) fn read_header(text: &[u8]) -> Step<Header>
    ensures { Comes (header text.now) Says result }
{
    let name = skip_name(text, 0)?;
    let variables = number_within(
        text,
        name.after,
        1,
        Refusal::OutOfRange,
        VARIABLES,
        Refusal::Full,
    )?;
    let largest = number_within(
        text,
        variables.after,
        1,
        Refusal::OutOfRange,
        VALUES,
        Refusal::OutOfRange,
    )?;
    let constraints = number_within(text, largest.after, 0, Refusal::Full, RULES, Refusal::Full)?;
    let bound = any_number(text, constraints.after)?;
    let what = Header {
        variables: variables.what,
        largest: largest.what,
        constraints: constraints.what,
    };
    Ok(Read {
        what,
        after: bound.after,
    })
}
