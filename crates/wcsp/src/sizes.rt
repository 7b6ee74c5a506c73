// The domain sizes of a file.
ghost use Rattle.std.specs.Prelude.{◌≡◌, ◌≤◌, take};
ghost use Rattle.meaning.specs.Limits.{variable_limit, value_limit};
ghost use Rattle.reading.specs.Reading.{several};
ghost use Rattle.reading.specs.Steps.{Comes};
ghost use Rattle.wcsp.specs.Files.{size_tests};
ghost use Rattle.wcsp.specs.Steps.{Under};

use meaning::VARIABLES;
use reading::{Read, Step, number_within};
use refusals::Refusal;

// The sizes of n variables, each from 1 to the largest, in the first places.
pub(crate) fn read_sizes(text: &[u8], at: usize, largest: usize, n: usize) -> Step<[u8; VARIABLES]>
    requires { (largest ≤ value_limit) × (n ≤ variable_limit) }
    ensures { Comes (several text.now (size_tests largest) n at) (λ ss k. (ss ≡ take n k) × Under 65 (take n k)) result }
{
    let mut sizes = [0u8; VARIABLES];
    let mut place = at;
    for size in sizes[..n].iter_mut() {
        let said = number_within(
            text,
            place,
            1,
            Refusal::OutOfRange,
            largest,
            Refusal::OutOfRange,
        )?;
        *size = said.what as u8;
        place = said.after;
    }
    Ok(Read {
        what: sizes,
        after: place,
    })
}
