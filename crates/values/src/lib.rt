// Sets of the values 0 to 63: the value v is in m where m's binary digit v is 1. No value of 64 or more is in any set.
#![tactic(auto)]

ghost use Rattle.values.specs.Sets.{Tells, Alone, Removed, Added, Shared, Less, Lowest, Highest, Dropped, Counts, AtOrAbove, First, TellsSingle};

// A value is below it. It also stands for "no value".
pub const VALUES: usize = 64;

// Whether v is in m.
#[tactic(auto, using(crate::proofs::One::tells_digit, crate::proofs::One::tells_none))]
pub fn has(m: u64, v: usize) -> bool
    ensures { Tells m v result }
{
    v < VALUES && (m >> v) & 1 == 1
}

// v alone; the empty set where v is no value.
pub fn only(v: usize) -> u64
    ensures { Alone v result }
{
    if v < VALUES { 1 << v } else { 0 }
}

// m with v taken away.
pub fn without(m: u64, v: usize) -> u64
    ensures { Removed m v result }
{
    less(m, only(v))
}

// m with v put in; m itself where v is no value.
pub fn with(m: u64, v: usize) -> u64
    ensures { Added m v result }
{
    m | only(v)
}

// The values that a and b share.
pub fn both(a: u64, b: u64) -> u64
    ensures { Shared a b result }
{
    a & b
}

// The values of a that are not in b.
pub fn less(a: u64, b: u64) -> u64
    ensures { Less a b result }
{
    a & !b
}

// The least value of m; 64 where m is empty.
pub fn lowest(m: u64) -> usize
    ensures { Lowest m result }
{
    m.trailing_zeros() as usize
}

// The greatest value of m; 64 where m is empty.
pub fn highest(m: u64) -> usize
    ensures { Highest m result }
{
    if m == 0 {
        return VALUES;
    }
    63 - m.leading_zeros() as usize
}

// m without its least value; the empty set stays empty.
pub fn without_lowest(m: u64) -> u64
    ensures { Dropped m result }
{
    if m == 0 {
        return 0;
    }
    m & (m - 1)
}

// How many values m has.
pub fn count(m: u64) -> usize
    ensures { Counts m result }
{
    m.count_ones() as usize
}

// The values of m that are v or more.
pub fn at_or_above(m: u64, v: usize) -> u64
    ensures { AtOrAbove m v result }
{
    less(m, first_values(v))
}

// The values below s; all 64 where s is 64 or more.
pub fn first_values(s: usize) -> u64
    ensures { First s result }
{
    if s < VALUES { (1 << s) - 1 } else { u64::MAX }
}

// Whether m has exactly one value.
#[tactic(auto, using(crate::proofs::Drop::single_dropped, crate::proofs::Drop::single_empty))]
pub fn is_single(m: u64) -> bool
    ensures { TellsSingle m result }
{
    m != 0 && without_lowest(m) == 0
}
