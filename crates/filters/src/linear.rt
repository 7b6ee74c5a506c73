// Filtering by a linear rule: the sum of coefficient times value is at most the bound.
// A coefficient is kept 1,000 more than it is, and a bound 5,000,000 more.
ghost use Rattle.std.specs.Prelude.{◌^◌, ◌<◌, ◌≡◌, length, get_or};
ghost use Rattle.meaning.specs.Limits.{variable_limit};
ghost use Rattle.filters.specs.Filter.{Filtering, Ready};
ghost use Rattle.filters.specs.Sifting.{Known, Narrowed, Sifted};
ghost use Rattle.filters.specs.Linear.{linear_of, Near, NearAt, Leaves};

use crate::tables::keep_each;
use blocks::keep;

// What the coefficient 0 and the bound 0 are kept as.
const ZERO_COEFFICIENT: usize = 1000;

const ZERO_BOUND: usize = 5000000;

// Drops each value without support in the rule. The answer is the set of the variables whose lists change.
pub(crate) fn filter(scope: &[u16], coefficients: &[u16], bound: usize, lists: &mut [u64]) -> u64
    requires { Ready (linear_of scope.now coefficients.now bound) lists.old }
    ensures { Filtering (linear_of scope.now coefficients.now bound) lists.old lists.new result }
{
    match slack_of(scope, coefficients, bound, lists) {
        Some(slack) => keep_near(scope, coefficients, slack, lists),
        None => keep_each(scope, &[0; 32], lists),
    }
}

// By how much the least sum is below the bound, where it is not above it.
// In the least sum a term with a negative coefficient stands at its highest value, any other at its lowest.
fn slack_of(scope: &[u16], coefficients: &[u16], bound: usize, lists: &[u64]) -> Option<usize>
    requires { Ready (linear_of scope.now coefficients.now bound) lists.now }
    ensures { Leaves (linear_of scope.now coefficients.now bound) coefficients.now lists.now result }
{
    // The least sum less the bound, as above less below.
    let mut above = ZERO_BOUND;
    let mut below = bound;
    for (i, x) in scope.iter().enumerate() {
        let kept = coefficients[i] as usize;
        let list = lists[*x as usize];
        if list == 0 {
            return None;
        }
        if kept < ZERO_COEFFICIENT {
            below += (ZERO_COEFFICIENT - kept) * values::highest(list);
        } else {
            above += (kept - ZERO_COEFFICIENT) * values::lowest(list);
        }
    }
    below.checked_sub(above)
}

// Keeps of each variable the values whose term is within the slack of its least.
fn keep_near(scope: &[u16], coefficients: &[u16], slack: usize, lists: &mut [u64]) -> u64
    requires { Known scope.now lists.old × (length coefficients.now ≡ length scope.now) }
    ensures { Sifted scope.now (length scope.now) (NearAt lists.old scope.now coefficients.now slack) lists.old lists.new result }
{
    let mut changed: u64 = 0;
    for (i, x) in scope.iter().enumerate() {
        changed |= keep_term(lists, *x as usize, coefficients[i] as usize, slack);
    }
    changed
}

// Keeps of x's list the values whose term, with the kept coefficient, is within the slack of its least.
fn keep_term(lists: &mut [u64], x: usize, kept: usize, slack: usize) -> u64
    requires { (length lists.old ≡ variable_limit) × (x < variable_limit) × (kept < 2 ^ 16) }
    ensures { Narrowed lists.old x (Near kept (get_or lists.old x 0) slack) lists.new result }
{
    let list = lists[x];
    let lowest = values::lowest(list);
    let highest = values::highest(list);
    // how far the coefficient is from 0
    let weight = kept.abs_diff(ZERO_COEFFICIENT);
    if weight * (highest - lowest) <= slack {
        return 0;
    }
    let reach = slack / weight;
    if kept < ZERO_COEFFICIENT {
        keep(lists, x, values::at_or_above(list, highest - reach))
    } else {
        keep(lists, x, values::first_values(lowest + reach + 1))
    }
}
