// The variables of a table.
ghost use Rattle.std.specs.Prelude.{◌≡◌, ◌≤◌, take};
ghost use Rattle.meaning.specs.Limits.{variable_limit, arity_limit};
ghost use Rattle.reading.specs.Reading.{number, several};
ghost use Rattle.reading.specs.Steps.{Comes, ComesTo};
ghost use Rattle.wcsp.specs.Files.{variable_tests};

use arguments::is_named;
use reading::{Read, Step, number_judged};
use refusals::Refusal;

// One of n variables that isn't among those named before it.
fn next_variable(text: &[u8], at: usize, n: usize, named: &[u8]) -> Step<usize>
    ensures { ComesTo (number text.now (variable_tests n named.now) at) result }
{
    number_judged(text, at, |x| {
        if n <= x {
            Err(Refusal::NoSuchVariable)
        } else if is_named(named, x) {
            Err(Refusal::VariableTwice)
        } else {
            Ok(())
        }
    })
}

// So many of n variables, none twice, in the first places.
pub(crate) fn read_scope(text: &[u8], at: usize, n: usize, arity: usize) -> Step<[u8; 8]>
    requires { (n ≤ variable_limit) × (arity ≤ arity_limit) }
    ensures { Comes (several text.now (variable_tests n) arity at) (λ xs k. xs ≡ take arity k) result }
{
    let mut variables = [0u8; 8];
    let mut place = at;
    for i in 0..arity {
        let x = next_variable(text, place, n, &variables[..i])?;
        variables[i] = x.what as u8;
        place = x.after;
    }
    Ok(Read {
        what: variables,
        after: place,
    })
}
