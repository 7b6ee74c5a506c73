// What the calls of document 01 test their arguments for.
#![tactic(auto)]

ghost use Rattle.std.specs.Prelude.{◌+◌, ◌≤◌, ◌≡◌, leb, length};
ghost use Rattle.std.specs.List.{list_any};
ghost use Rattle.meaning.specs.Limits.{coefficient_limit};
ghost use Rattle.meaning.specs.Calls.{beyond};
ghost use Rattle.arguments.specs.Checks.{listed_again};
ghost use Rattle.arguments.specs.Promises.{AnyUnknown, AnyLarge, IsNamed, AnyTwice, TupleTwice, BeyondBound, AnyBeyond};

use tuples::{KEYS, is_listed, key_of};

// A value is below it.
const VALUES: usize = 64;

// A coefficient and a bound lie between minus this and this.
pub const COEFFICIENT: i32 = 1000;

pub const BOUND: i32 = 5_000_000;

// Whether one of the numbers isn't below the limit.
fn any_from(numbers: &[u8], limit: usize) -> bool
    ensures { result ≡ list_any (leb limit) numbers.now }
{
    numbers.iter().any(|number| limit <= *number as usize)
}

// Whether one of the variables isn't among the first `count`.
#[tactic(auto, using(tuples::proofs::Chains::some_any))]
pub fn any_unknown(variables: &[u8], count: usize) -> bool
    ensures { AnyUnknown variables.now count result }
{
    any_from(variables, count)
}

// Whether one of the values is out of range.
#[tactic(auto, using(tuples::proofs::Chains::some_any))]
pub fn any_large(values: &[u8]) -> bool
    ensures { AnyLarge values.now result }
{
    any_from(values, VALUES)
}

// Whether x is one of the variables.
pub fn is_named(variables: &[u8], x: usize) -> bool
    ensures { IsNamed variables.now x result }
{
    variables.iter().any(|variable| x == *variable as usize)
}

// Whether a variable stands twice.
#[tactic(auto, using(crate::proofs::Twice::twice_here, crate::proofs::Twice::once_here, crate::proofs::Twice::none_left))]
pub fn any_twice(variables: &[u8]) -> bool
    ensures { AnyTwice variables.now result }
{
    for (i, variable) in variables.iter().enumerate() {
        if is_named(&variables[i + 1..], *variable as usize) {
            return true;
        }
    }
    false
}

// Whether the tuple at a place stands again after it.
fn listed_again(cells: &[u8], place: usize, arity: usize) -> bool
    requires { place + arity ≤ length cells.now }
    ensures { result ≡ listed_again arity cells.now place }
{
    let rest = place + arity;
    is_listed(&cells[place..rest], &cells[rest..])
}

// Whether a tuple stands twice, where so many cells make one. It goes from the last tuple to the first, with a mark at the key of each that it passed:
// only a tuple whose key is marked can stand again.
#[tactic(auto, using(crate::proofs::Keys::no_tuples))]
pub fn tuple_twice(cells: &[u8], arity: usize) -> bool
    ensures { TupleTwice cells.now arity result }
{
    if arity == 0 {
        return false;
    }
    let mut marked = [false; KEYS];
    for i in (0..cells.len() / arity).rev() {
        let place = i * arity;
        let key = key_of(&cells[place..place + arity]);
        if marked[key] && listed_again(cells, place, arity) {
            return true;
        }
        marked[key] = true;
    }
    false
}

// Whether a bound is out of range.
pub fn beyond_bound(bound: i32) -> bool
    ensures { BeyondBound bound result }
{
    bound < -BOUND || BOUND < bound
}

// Whether a coefficient is out of range.
fn beyond_coefficient(coefficient: i32) -> bool
    ensures { result ≡ beyond coefficient_limit coefficient }
{
    coefficient < -COEFFICIENT || COEFFICIENT < coefficient
}

// Whether one of the coefficients is out of range.
pub fn any_beyond(coefficients: &[i32]) -> bool
    ensures { AnyBeyond coefficients.now result }
{
    coefficients
        .iter()
        .any(|coefficient| beyond_coefficient(*coefficient))
}
