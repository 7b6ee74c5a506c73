// Filtering by every rule in the order held, until a sweep drops nothing.
ghost use Rattle.std.specs.Prelude.{◌≡◌, length};
ghost use Rattle.meaning.specs.Limits.{variable_limit, room_limit};
ghost use Rattle.filters.specs.Layout.{Placed, AllPlaced, rule_under, rules_at};
ghost use Rattle.filters.specs.Filter.{Filtering, FiltersBy, Sweeping, SettlesLists};
ghost use Rattle.filters.specs.Held.{RulesOf};

use crate::{Head, Kind, Rules, allowed, forbidden, linear};

// Drops every value without support in the k-th of the rules of a state. The answer is the set of the variables whose lists change.
pub fn filter_rule(rules: Rules<'_>, k: usize, lists: &mut [u64]) -> u64
    requires { RulesOf rules.heads.now rules.room.now }
    ensures { FiltersBy rules.entry.heads.now rules.entry.room.now k lists.old lists.new result }
{
    if lists.len() != 32 || rules.heads.len() <= k {
        return 0;
    }
    filter_by(rules.heads[k], rules.room, lists)
}

// The same for a rule that lies in the room.
fn filter_by(head: Head, room: &[u16], lists: &mut [u64]) -> u64
    requires placed { Placed room.now head }
    requires room_len { (length room.now ≡ room_limit) × (length lists.old ≡ variable_limit) }
    ensures { Filtering (rule_under room.now head) lists.old lists.new result }
{
    let scope = head.scope(room);
    let behind = &room[head.start as usize + scope.len()..];
    let last = head.last as usize;
    match head.kind {
        Kind::Allow => allowed::filter(scope, &behind[..last * scope.len()], lists),
        Kind::Forbid => forbidden::filter(scope, &behind[..last * scope.len()], lists),
        Kind::Linear => linear::filter(scope, &behind[..scope.len()], last, lists),
    }
}

// One sweep over the rules. The answer is 0 just where nothing was dropped.
fn sweep(rules: Rules<'_>, lists: &mut [u64]) -> u64
    requires all_placed { AllPlaced rules.heads.now rules.room.now }
    requires room_len { (length rules.room.now ≡ room_limit) × (length lists.old ≡ variable_limit) }
    ensures { Sweeping (rules_at rules.entry.heads.now rules.entry.room.now) lists.old lists.new result }
{
    let mut changed: u64 = 0;
    for head in rules.heads {
        changed |= filter_by(*head, rules.room, lists);
    }
    changed
}

// Sweeps over the rules of a state until one drops nothing: the largest closed lists within those given.
pub fn settled(rules: Rules<'_>, lists: [u64; 32]) -> [u64; 32]
    requires { RulesOf rules.heads.now rules.room.now }
    ensures { SettlesLists rules.entry.heads.now rules.entry.room.now lists result }
{
    let mut left = lists;
    while sweep(rules, &mut left) != 0 {}
    left
}
