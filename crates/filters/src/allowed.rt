// Filtering by a table of allowed tuples: a value stays where some live tuple has it.
ghost use Rattle.std.specs.Prelude.{◌≡◌, ◌≤◌, length};
ghost use Rattle.meaning.specs.Limits.{value_limit};
ghost use Rattle.meaning.specs.Calls.{allow, rule_of};
ghost use Rattle.filters.specs.Filter.{Filtering, Ready};
ghost use Rattle.filters.specs.Tables.{Below, Tuples, pieces, Marking, Marked};

use crate::tables::{gather, is_live, keep_each};

// Marks each value of the tuple at its place.
fn mark(tuple: &[u16], marked: &mut [u64])
    requires { (length tuple.now ≤ length marked.old) × Below value_limit tuple.now }
    ensures { Marking tuple.now marked.old marked.new }
{
    for (j, value) in tuple.iter().enumerate() {
        marked[j] |= 1 << *value;
    }
}

// For each place the values that the live tuples have there.
fn marks(cells: &[u16], masks: &[u64]) -> [u64; 8]
    requires { Tuples (length masks.now) (pieces (length masks.now) cells.now) }
    ensures { Marked masks.now (length masks.now) (pieces (length masks.now) cells.now) result }
{
    let mut marked = [0u64; 8];
    for tuple in cells.chunks_exact(masks.len()) {
        if is_live(tuple, masks) {
            mark(tuple, &mut marked);
        }
    }
    marked
}

// Drops from the lists of the variables what no allowed tuple supports. The answer is the set of the variables whose lists change.
// It is no part of its caller, so that the place of its loops does not hang on the other filters.
#[inline(never)]
pub(crate) fn filter(scope: &[u16], cells: &[u16], lists: &mut [u64]) -> u64
    requires { Ready (rule_of allow scope.now cells.now) lists.old }
    ensures { Filtering (rule_of allow scope.now cells.now) lists.old lists.new result }
{
    let gathered = gather(scope, lists);
    let marked = marks(cells, &gathered[..scope.len()]);
    keep_each(scope, &marked, lists)
}
