// Reading a text left to right: the next number or name, with the tests that it has to pass.
#![tactic(auto)]

ghost use Rattle.std.specs.Prelude.{ℕ, ◌^◌, ◌<◌};
ghost use Rattle.reading.specs.Promises.{IsFaultOf, ComesToNumberJudged, ComesToAnyNumber, ComesToNumberWithin, ComesToNumberBelow, ComesToName, ComesToEnd};

use refusals::Refusal;
use text::{Malformed, read_name, read_number, skip_blanks};

// Why the reading stops, and at which byte.
#[derive(Clone, Copy, Debug, PartialEq, Eq)]
pub struct Fault {
    pub refusal: Refusal,
    pub at: usize,
}

impl From<Malformed> for Fault {
    ghost from_gives = { IsFaultOf };

    fn from(malformed: Malformed) -> Fault {
        Fault {
            refusal: Refusal::Malformed,
            at: malformed.start,
        }
    }
}

// What was read, and the place after it.
#[derive(Clone, Copy, Debug, PartialEq, Eq)]
pub struct Read<T> {
    pub what: T,
    pub after: usize,
}

// How far the reading came: a fault, or something read.
pub type Step<T> = Result<Read<T>, Fault>;

// A number that a judge lets through; what the judge refuses is reported at the number's first byte.
pub fn number_judged<J: FnOnce(usize) -> Result<(), Refusal>>(
    text: &[u8],
    at: usize,
    judge: J,
) -> Step<usize>
    requires { (v : ℕ) → v < 2 ^ 32 → J.pre judge v }
    ensures { ComesToNumberJudged text.now at (λ v. J.post judge v) result }
{
    let number = read_number(text, at)?;
    let what = number.value as usize;
    match judge(what) {
        Ok(()) => Ok(Read {
            what,
            after: number.after,
        }),
        Err(refusal) => Err(Fault {
            refusal,
            at: number.start,
        }),
    }
}

// Any number.
pub fn any_number(text: &[u8], at: usize) -> Step<usize>
    ensures { ComesToAnyNumber text.now at result }
{
    let Read { what, after } = number_judged(text, at, |_| Ok(()))?;
    Ok(Read { what, after })
}

// A number from low to high.
pub fn number_within(
    text: &[u8],
    at: usize,
    low: usize,
    below: Refusal,
    high: usize,
    above: Refusal,
) -> Step<usize>
    ensures { ComesToNumberWithin text.now at low below high above result }
{
    number_judged(text, at, |value| {
        if value < low {
            Err(below)
        } else if high < value {
            Err(above)
        } else {
            Ok(())
        }
    })
}

// A number below the limit.
pub fn number_below(text: &[u8], at: usize, limit: usize, above: Refusal) -> Step<usize>
    ensures { ComesToNumberBelow text.now at limit above result }
{
    number_judged(
        text,
        at,
        |value| if limit <= value { Err(above) } else { Ok(()) },
    )
}

// A name; nothing of it is kept, so what is read is 0.
#[tactic(auto, unfolding(crate::specs::Reading::name))]
pub fn skip_name(text: &[u8], at: usize) -> Step<usize>
    ensures { ComesToName text.now at result }
{
    let after = read_name(text, at)?;
    Ok(Read { what: 0, after })
}

// No token is left, so what is read is 0.
#[tactic(auto, unfolding(crate::specs::Reading::ended))]
pub fn read_end(text: &[u8], at: usize) -> Step<usize>
    ensures { ComesToEnd text.now at result }
{
    let start = skip_blanks(text, at);
    if start != text.len() {
        return Err(Malformed { start }.into());
    }
    Ok(Read { what: 0, after: at })
}
