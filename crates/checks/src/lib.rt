// What the additions of rules are refused for, in document 01's order.
#![tactic(auto)]

ghost use Rattle.std.specs.Prelude.{◌≡◌};
ghost use Rattle.checks.specs.Tests.{TestsTable, TestsLinear, overfull};

use arguments::{any_beyond, any_large, any_twice, any_unknown, beyond_bound, tuple_twice};
use meaning::{ROOM, RULES, VARIABLES};
use refusals::Refusal;

// The most variables of a table; a linear rule may have all of them.
const ARITY: usize = 8;

// How much stands: so many variables, decisions and rules, and so many numbers in the room.
#[derive(Clone, Copy)]
pub struct Counts {
    pub variables: usize,
    pub depth: usize,
    pub rules: usize,
    pub used: usize,
}

// A table, tested where so much stands.
#[tactic(auto, unfolding(meaning::specs::Refusals::first))]
pub fn table_tested(counts: Counts, scope: &[u8], cells: &[u8]) -> Result<(), Refusal>
    ensures { TestsTable counts scope.now cells.now result }
{
    let arity = scope.len();
    if 0 < counts.depth {
        return Err(Refusal::Decided);
    }
    if arity == 0 || ARITY < arity || cells.len() % arity != 0 {
        return Err(Refusal::WrongLength);
    }
    if any_unknown(scope, counts.variables) {
        return Err(Refusal::NoSuchVariable);
    }
    if any_twice(scope) {
        return Err(Refusal::VariableTwice);
    }
    if any_large(cells) {
        return Err(Refusal::OutOfRange);
    }
    if tuple_twice(cells, arity) {
        return Err(Refusal::TupleTwice);
    }
    if is_full(counts, arity + cells.len()) {
        return Err(Refusal::Full);
    }
    Ok(())
}

// The same for a linear rule.
#[tactic(auto, unfolding(meaning::specs::Refusals::first))]
pub fn linear_tested(
    counts: Counts,
    scope: &[u8],
    coefficients: &[i32],
    bound: i32,
) -> Result<(), Refusal>
    ensures { TestsLinear counts scope.now coefficients.now bound result }
{
    let arity = scope.len();
    if 0 < counts.depth {
        return Err(Refusal::Decided);
    }
    if arity == 0 || VARIABLES < arity || coefficients.len() != arity {
        return Err(Refusal::WrongLength);
    }
    if any_unknown(scope, counts.variables) {
        return Err(Refusal::NoSuchVariable);
    }
    if any_twice(scope) {
        return Err(Refusal::VariableTwice);
    }
    if any_beyond(coefficients) || beyond_bound(bound) {
        return Err(Refusal::OutOfRange);
    }
    if is_full(counts, 2 * arity + 1) {
        return Err(Refusal::Full);
    }
    Ok(())
}

// Whether no rule more is held, or not with so many numbers more.
fn is_full(counts: Counts, numbers: usize) -> bool
    ensures { result ≡ overfull counts numbers }
{
    RULES <= counts.rules || ROOM < counts.used || ROOM - counts.used < numbers
}
