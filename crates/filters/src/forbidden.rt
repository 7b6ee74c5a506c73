// Filtering by a table of forbidden tuples: a value goes where every way to choose the others is among them.
ghost use Rattle.std.specs.Prelude.{ℕ, ◌+◌, ◌*◌, ◌<◌, ◌≤◌, ◌≡◌, ltb, length, get_or};
ghost use Rattle.std.specs.List.{list_all};
ghost use Rattle.meaning.specs.Limits.{value_limit, arity_limit, room_limit};
ghost use Rattle.meaning.specs.Calls.{forbid, rule_of};
ghost use Rattle.meaning.proofs.Listed.{product_but};
ghost use Rattle.filters.specs.Filter.{Filtering, Ready};
ghost use Rattle.filters.specs.Tables.{Below, Tuples, pieces, Products, ProductsOf, Tallying, Counted, Blank, FewerAt, Fewer, LeftBy, cell, places};

use crate::tables::{gather, is_live, keep_each};
use values::VALUES;

// In how many ways values can be chosen from all masks but the j-th.
fn ways_but(masks: &[u64], j: usize) -> usize
    requires { length masks.now ≤ arity_limit }
    ensures { result ≡ product_but masks.now (places (length masks.now)) j }
{
    let mut ways = 1;
    for (i, mask) in masks.iter().enumerate() {
        if i != j {
            ways *= values::count(*mask);
        }
    }
    ways
}

// The same for each place, in the first ones.
fn ways_of(masks: &[u64]) -> [usize; 8]
    requires { length masks.now ≤ arity_limit }
    ensures { Products masks.now (length masks.now) result }
{
    let mut ways = [0usize; 8];
    for j in 0..masks.len() {
        ways[j] = ways_but(masks, j);
    }
    ways
}

// Whether the tuples are too few to drop anything.
fn too_few(tuples: usize, ways: &[usize]) -> bool
    ensures { result ≡ list_all (λ way. ltb tuples way) ways.now }
{
    ways.iter().all(|way| tuples < *way)
}

// Counts each value of the tuple at its place.
fn tally(tuple: &[u16], counts: &mut [u16])
    requires small { Below value_limit tuple.now × (length tuple.now * value_limit ≤ length counts.old) }
    requires by_index { (j : ℕ) → j < length tuple.now → get_or counts.old (cell j (get_or tuple.now j 0)) 0 < room_limit }
    ensures { Tallying tuple.now counts.old counts.new }
{
    for (j, value) in tuple.iter().enumerate() {
        counts[j * VALUES + *value as usize] += 1;
    }
}

// For each place and value the number of live tuples that have it there, in counts that are 0.
fn count_live(cells: &[u16], masks: &[u64], counts: &mut [u16])
    requires { Tuples (length masks.now) (pieces (length masks.now) cells.now) × (length cells.now ≤ room_limit) × Blank (length masks.now) counts.old }
    ensures { Counted masks.now (length masks.now) (pieces (length masks.now) cells.now) counts.new }
{
    for tuple in cells.chunks_exact(masks.len()) {
        if is_live(tuple, masks) {
            tally(tuple, counts);
        }
    }
}

// The values of the set m that are counted fewer than limit times at place j.
#[tactic(auto, using(crate::proofs::Walking::fewer_steps))]
fn fewer(m: u64, counts: &[u16], j: usize, limit: usize) -> u64
    requires { (j < arity_limit) × (j * value_limit + value_limit ≤ length counts.now) }
    ensures { FewerAt counts.now j limit m result }
{
    let mut kept = 0;
    let mut rest = m;
    while rest != 0 {
        let v = u64::trailing_zeros(rest) as usize;
        if (counts[j * VALUES + v] as usize) < limit {
            kept |= 1 << v;
        }
        rest &= rest - 1;
    }
    kept
}

// For each place the values of its mask that a way to choose the others supports.
fn supported(masks: &[u64], ways: &[usize], counts: &[u16]) -> [u64; 8]
    requires counted { (length masks.now ≤ arity_limit) × (length masks.now * value_limit ≤ length counts.now) }
    requires products { ProductsOf masks.now ways.now }
    ensures { Fewer masks.now (length masks.now) counts.now result }
{
    let mut left = [0u64; 8];
    for (j, mask) in masks.iter().enumerate() {
        left[j] = fewer(*mask, counts, j, ways[j]);
    }
    left
}

// For each place the values left to it, by counts that are 0 at first.
fn left_by(cells: &[u16], masks: &[u64], ways: &[usize], counts: &mut [u16]) -> [u64; 8]
    requires tuples { Tuples (length masks.now) (pieces (length masks.now) cells.now) × (length cells.now ≤ room_limit) × Blank (length masks.now) counts.old }
    requires products { ProductsOf masks.now ways.now }
    ensures { LeftBy masks.now (length masks.now) (pieces (length masks.now) cells.now) result }
{
    count_live(cells, masks, counts);
    supported(masks, ways, counts)
}

// The same. A pair of variables needs few counts, and clearing them is most of the work.
fn left_of(cells: &[u16], masks: &[u64], ways: &[usize]) -> [u64; 8]
    requires tuples { Tuples (length masks.now) (pieces (length masks.now) cells.now) × (length cells.now ≤ room_limit) }
    requires products { ProductsOf masks.now ways.now }
    ensures { LeftBy masks.now (length masks.now) (pieces (length masks.now) cells.now) result }
{
    if masks.len() == 2 {
        let mut few = [0u16; 128];
        return left_by(cells, masks, ways, &mut few);
    }
    let mut counts = [0u16; 512];
    left_by(cells, masks, ways, &mut counts)
}

// Drops from the lists of the variables what has no support. The answer is the set of the variables whose lists change.
pub(crate) fn filter(scope: &[u16], cells: &[u16], lists: &mut [u64]) -> u64
    requires { Ready (rule_of forbid scope.now cells.now) lists.old × (length cells.now ≤ room_limit) }
    ensures { Filtering (rule_of forbid scope.now cells.now) lists.old lists.new result }
{
    let gathered = gather(scope, lists);
    let masks = &gathered[..scope.len()];
    let products = ways_of(masks);
    let ways = &products[..scope.len()];
    if too_few(cells.len() / scope.len(), ways) {
        return 0;
    }
    let left = left_of(cells, masks, ways);
    keep_each(scope, &left, lists)
}
