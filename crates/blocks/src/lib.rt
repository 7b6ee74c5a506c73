// The 33 blocks of lists that a state keeps: block k holds the values left to each variable after k decisions.
#![tactic(auto)]

ghost use Rattle.blocks.specs.Keeping.{KeptIn};
ghost use Rattle.blocks.specs.Blocks.{ListOf, Copied, PutLists, ClearedAfter};

use meaning::{DECISIONS, VARIABLES};

// How many blocks there are.
pub const BLOCKS: usize = DECISIONS + 1;

// The list of the variable x after k decisions; 0 where there is no such place.
pub fn list_of(lists: &[[u64; VARIABLES]; BLOCKS], k: usize, x: usize) -> u64
    ensures { ListOf lists.now k x result }
{
    lists
        .get(k)
        .and_then(|block| block.get(x))
        .copied()
        .unwrap_or(0)
}

// The lists after k decisions.
#[tactic(auto, using(crate::proofs::Reading::copied))]
pub fn lists_after(lists: &[[u64; VARIABLES]; BLOCKS], k: usize) -> [u64; VARIABLES]
    ensures { Copied lists.now k result }
{
    lists.get(k).copied().unwrap_or([0; VARIABLES])
}

// Makes `left` the lists after k decisions, where there is such a block.
pub fn put_lists(lists: &mut [[u64; VARIABLES]; BLOCKS], k: usize, left: [u64; VARIABLES])
    ensures { PutLists lists.old k left lists.new }
{
    if k <= DECISIONS {
        lists[k] = left;
    }
}

// Empties the lists of every depth above k.
#[tactic(auto, using(crate::proofs::Writing::nothing_past))]
pub fn clear_after(lists: &mut [[u64; VARIABLES]; BLOCKS], k: usize)
    ensures { ClearedAfter lists.old k lists.new }
{
    if k < DECISIONS {
        lists[k + 1..].fill([0; VARIABLES]);
    }
}

// Keeps of x's list, one of 32, what mask has too. The answer is the set of the variables whose lists change: x or none.
#[tactic(auto, using(crate::proofs::Keeping::stays_in, crate::proofs::Keeping::changes_in))]
pub fn keep(lists: &mut [u64], x: usize, mask: u64) -> u64
    ensures { KeptIn lists.old x mask lists.new result }
{
    if lists.len() != VARIABLES || VARIABLES <= x {
        return 0;
    }
    let old = lists[x];
    let new = old & mask;
    lists[x] = new;
    if new == old { 0 } else { 1 << x }
}
