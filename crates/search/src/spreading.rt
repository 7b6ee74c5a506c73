// Filtering only by the rules that a change can touch: the same largest lists by less work.
ghost use Rattle.std.specs.Prelude.{◌≡◌, ◌≤◌, ◌<◌, length};
ghost use Rattle.meaning.specs.Limits.{variable_limit, rule_limit};
ghost use Rattle.filters.specs.Layout.{AllPlaced};
ghost use Rattle.search.specs.Spreading.{Touching, Noted, AffectedBy, InVariables, Spread, ScopeIn};
ghost use Rattle.search.specs.Tasks.{NetOf, DueIn, rules_of};

use crate::task::Task;
use filters::{Rules, filter_rule};

// For each variable the set of the rules on it.
pub(crate) fn rules_on(rules: Rules<'_>) -> [u64; 32]
    requires { AllPlaced rules.heads.now rules.room.now × (length rules.heads.now ≤ rule_limit) }
    ensures { Touching rules.entry.heads.now rules.entry.room.now (length rules.entry.heads.now) result }
{
    let mut touching = [0u64; 32];
    for (k, head) in rules.heads.iter().enumerate() {
        note(head.scope(rules.room), k, &mut touching);
    }
    touching
}

// Puts the rule k into the set of each variable of its scope.
fn note(scope: &[u16], k: usize, touching: &mut [u64])
    requires { ScopeIn scope.now × (length touching.old ≡ variable_limit) × (k < rule_limit) }
    ensures { Noted scope.now k touching.old touching.new }
{
    for &x in scope {
        touching[x as usize] |= 1 << k;
    }
}

// The rules on the changed variables; none where the list of one of these is empty.
pub(crate) fn affected_by(sets: &[u64], lists: &[u64], changed: u64) -> Option<u64>
    requires { (length sets.now ≡ variable_limit) × (length lists.now ≡ variable_limit) × InVariables changed }
    ensures { AffectedBy sets.now lists.now changed result }
{
    let mut rules = 0;
    let mut rest = changed;
    while rest != 0 {
        let x = values::lowest(rest);
        if lists[x] == 0 {
            return None;
        }
        rules |= sets[x];
        rest = values::without_lowest(rest);
    }
    Some(rules)
}

// Filters by the rules that are due, and by those that this makes due, until none is; none where a list is empty.
pub(crate) fn spread(task: &Task<'_>, due: u64, lists: &mut [u64]) -> Option<()>
    requires net { NetOf task.now × (length lists.old ≡ variable_limit) }
    requires due { DueIn task.now lists.old due }
    ensures { Spread (rules_of task.now) lists.old lists.new result }
{
    let mut rest = due;
    while rest != 0 {
        let k = values::lowest(rest);
        let changed = filter_rule(task.rules, k, lists);
        let after = affected_by(&task.sets, lists, changed)?;
        rest = values::without_lowest(rest) | values::without(after, k);
    }
    Some(())
}
