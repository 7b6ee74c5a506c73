// What a search keeps to, from its first node to its last.
use filters::Rules;

// The rules with the set of those on each variable, the objectives with the thresholds that their values are to reach, and the number of variables.
// That they fit one another (`NetOf`) rests on the calls that left the rules, which no ghost field may name, so the functions require it.
#[derive(Clone, Copy)]
pub(crate) struct Task<'a> {
    pub(crate) rules: Rules<'a>,
    pub(crate) sets: [u64; 32],
    pub(crate) goals: &'a [u8],
    pub(crate) floors: &'a [u8],
    pub(crate) n: usize,
}
