// Table rules: a scope, which is the rule's variables, and its tuples, each as many numbers as the scope has.
ghost use Rattle.std.specs.Prelude.{◌≡◌, ◌≤◌, length, get_or};
ghost use Rattle.meaning.specs.Limits.{variable_limit, value_limit, arity_limit};
ghost use Rattle.meaning.specs.Values.{Has};
ghost use Rattle.meaning.proofs.Listed.{live};
ghost use Rattle.filters.specs.Sifting.{Known, Sifted};
ghost use Rattle.filters.specs.Tables.{Below, Gathered, places};

use blocks::keep;

// The lists of the variables, side by side: a mask for each place of a tuple.
pub(crate) fn gather(scope: &[u16], lists: &[u64]) -> [u64; 8]
    requires { (length scope.now ≤ arity_limit) × Below variable_limit scope.now × (length lists.now ≡ variable_limit) }
    ensures { Gathered lists.now scope.now (length scope.now) result }
{
    let mut masks = [0u64; 8];
    for (j, x) in scope.iter().enumerate() {
        masks[j] = lists[*x as usize];
    }
    masks
}

// Whether each value of the tuple is in its mask.
pub(crate) fn is_live(tuple: &[u16], masks: &[u64]) -> bool
    requires { (length tuple.now ≡ length masks.now) × Below value_limit tuple.now }
    ensures { result ≡ live masks.now (places (length masks.now)) tuple.now }
{
    for (j, value) in tuple.iter().enumerate() {
        if (masks[j] >> *value) & 1 != 1 {
            return false;
        }
    }
    true
}

// Keeps of the lists of the variables what the masks have too. The answer is the set of the variables whose lists change.
pub(crate) fn keep_each(scope: &[u16], masks: &[u64], lists: &mut [u64]) -> u64
    requires { Known scope.now lists.old × (length scope.now ≤ length masks.now) }
    ensures { Sifted scope.now (length scope.now) (λ j v. Has (get_or masks.now j 0) v) lists.old lists.new result }
{
    let mut changed = 0;
    for (j, x) in scope.iter().enumerate() {
        changed |= keep(lists, *x as usize, masks[j]);
    }
    changed
}
