// Tuples of values: whether two are the same, whether one is listed, and keys that show fast that it is not.
#![tactic(auto)]

ghost use Rattle.tuples.specs.Keys.{KeyOf};
ghost use Rattle.tuples.specs.Rows.{AreSame, IsListed};

// How many keys there are.
pub const KEYS: usize = 16384;

// Whether two tuples are the same.
#[tactic(auto, using(crate::proofs::Chains::same_pointwise, crate::proofs::Chains::whole))]
pub fn are_same(a: &[u8], b: &[u8]) -> bool
    ensures { AreSame a.now b.now result }
{
    a == b
}

// Whether a tuple is one of those that the cells make, each of as many cells as it has.
#[tactic(auto, using(crate::proofs::Rows::none_listed))]
pub fn is_listed(tuple: &[u8], cells: &[u8]) -> bool
    ensures { IsListed tuple.now cells.now result }
{
    if tuple.is_empty() {
        return false;
    }
    cells
        .chunks_exact(tuple.len())
        .any(|other| are_same(tuple, other))
}

// A key of a tuple: the same tuples have the same key, and few others share it.
#[tactic(auto, using(crate::proofs::Comparing::key_next, crate::proofs::Comparing::key_last))]
pub fn key_of(tuple: &[u8]) -> usize
    ensures { KeyOf tuple.now result }
{
    let mut key: usize = 0;
    for value in tuple {
        key = (key * 67 + *value as usize) % KEYS;
    }
    key
}
