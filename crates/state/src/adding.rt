// Adding tables and linear rules.
ghost use Rattle.std.specs.Prelude.{◌≡◌};
ghost use Rattle.meaning.specs.Rules.{linear};
ghost use Rattle.meaning.specs.Calls.{rule_of};
ghost use Rattle.state.specs.Holds.{Reached};
ghost use Rattle.state.specs.Promises.{AddsTable, AddsLinear, sort_said};
ghost use Rattle.state.specs.Additions.{TableFits, LinearFits, Extends, Followable, Followed, counts_of};

use crate::writing::{put_bytes, put_shifted, shifted_bound};
use crate::{AfterCall, Sort, State};
use blocks::{lists_after, put_lists};
use checks::{Counts, linear_tested, table_tested};
use filters::{Head, Kind, filter_rule, settled};

// One table more: its variables, and its tuples' values one after the other.
pub fn add_table(s: State, sort: Sort, scope: &[u8], cells: &[u8]) -> AfterCall
    requires { Reached s }
    ensures { AddsTable s sort scope.now cells.now result.answer result.state }
{
    if let Err(refusal) = table_tested(counts(&s), scope, cells) {
        return AfterCall::refused(refusal, s);
    }
    AfterCall::accepted(followed(with_table(s, sort, scope, cells), s.rules))
}

// How much stands, for the tests.
fn counts(s: &State) -> Counts
    ensures { result ≡ counts_of s.now }
{
    Counts {
        variables: s.variables,
        depth: s.depth,
        rules: s.rules,
        used: s.used,
    }
}

// The table is written behind the rules that are there; the lists stay as they are.
fn with_table(s: State, sort: Sort, scope: &[u8], cells: &[u8]) -> State
    requires { Reached s × TableFits s.depth s.rules s.used scope.now cells.now }
    ensures { Extends s (rule_of (sort_said sort) scope.now cells.now) result }
{
    let mut t = s;
    let start = t.used;
    let first = start + scope.len();
    let end = first + cells.len();
    put_bytes(&mut t.room[start..first], scope);
    put_bytes(&mut t.room[first..end], cells);
    t.heads[t.rules] = Head {
        kind: Kind::from(sort),
        arity: scope.len() as u32,
        start: start as u32,
        last: (cells.len() / scope.len()) as u32,
    };
    t.used = end;
    t.rules += 1;
    t
}

// One linear rule more: the sum of coefficient times value is at most the bound.
pub fn add_linear(s: State, scope: &[u8], coefficients: &[i32], bound: i32) -> AfterCall
    requires { Reached s }
    ensures { AddsLinear s scope.now coefficients.now bound result.answer result.state }
{
    if let Err(refusal) = linear_tested(counts(&s), scope, coefficients, bound) {
        return AfterCall::refused(refusal, s);
    }
    AfterCall::accepted(followed(with_linear(s, scope, coefficients, bound), s.rules))
}

// The linear rule is written behind the rules that are there; the lists stay as they are.
fn with_linear(s: State, scope: &[u8], coefficients: &[i32], bound: i32) -> State
    requires { Reached s × LinearFits s.depth s.rules s.used scope.now coefficients.now bound }
    ensures { Extends s (linear scope.now coefficients.now bound) result }
{
    let mut t = s;
    let start = t.used;
    let first = start + scope.len();
    let end = first + coefficients.len();
    put_bytes(&mut t.room[start..first], scope);
    put_shifted(&mut t.room[first..end], coefficients);
    t.heads[t.rules] = Head {
        kind: Kind::Linear,
        arity: scope.len() as u32,
        start: start as u32,
        last: shifted_bound(bound),
    };
    t.used = end + 1;
    t.rules += 1;
    t
}

// The lists follow the rule k, which is new: no decision is outstanding.
fn followed(s: State, k: usize) -> State
    requires { Followable s k }
    ensures { Followed s result }
{
    let mut t = s;
    let rules = t.rules_held();
    let mut left = lists_after(&t.lists, 0);
    if filter_rule(rules, k, &mut left) != 0 {
        left = settled(rules, left);
    }
    put_lists(&mut t.lists, 0, left);
    t
}
