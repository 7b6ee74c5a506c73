// What the costs in a file say: 0 allows, and any other forbids.
#![tactic(auto)]

ghost use Rattle.costs.specs.Costs.{SaysSame, SaysSort};

use state::Sort;

// Whether a tuple's cost says what the default says already.
pub fn says_same(default: usize, cost: usize) -> bool
    ensures { SaysSame default cost result }
{
    if default == 0 { cost == 0 } else { cost != 0 }
}

// What a table says of the tuples that it lists.
pub fn sort_by(default: usize) -> Sort
    ensures { SaysSort default result }
{
    if default != 0 {
        Sort::Allow
    } else {
        Sort::Forbid
    }
}
