// The second solver's lists left: each rule's combinations of values left are enumerated, and a value in none that satisfies it goes.
use crate::calls::{Sort, Way};
use crate::lists::{List, SHORT, at, only};
use crate::second::{Lists, Record, Rule, Test};
use crate::second_combinations::{Combinations, Values};

// Each round that changes a list takes one of at most 32 times 64 values.
const ROUNDS: usize = 2049;

// The values left to each variable.
pub(crate) fn left(record: &Record) -> Lists {
    let mut lists = decided(record);
    for _ in 0..ROUNDS {
        let before = lists;
        narrow_all(record, &mut lists);
        if lists == before {
            return lists;
        }
    }
    lists
}

fn narrow_all(record: &Record, lists: &mut Lists) {
    for rule in record.rules.as_slice() {
        narrow(record, rule, lists);
    }
}

// The declared values within the outstanding decisions.
pub(crate) fn decided(record: &Record) -> Lists {
    let mut lists = record.declared;
    for decision in record.decided.as_slice() {
        let value = only(decision.value);
        let kept = match decision.way {
            Way::Pin => value,
            Way::Ban => !value,
        };
        let list = at(lists.as_slice(), decision.variable);
        lists.put(decision.variable, list & kept);
    }
    lists
}

// Takes from the lists what the rule gives no support.
fn narrow(record: &Record, rule: &Rule, lists: &mut Lists) {
    let open = placed(rule, lists.as_slice());
    let kept = supported(record, rule, open.as_slice());
    for (x, list) in rule.scope.as_slice().iter().zip(&kept) {
        lists.put(*x, *list);
    }
}

// What stands at the rule's variables, in its order.
pub(crate) fn placed<T: Copy + Default>(rule: &Rule, items: &[T]) -> List<T, SHORT> {
    let mut list = List::new(T::default());
    for x in rule.scope.as_slice() {
        list.push(at(items, *x));
    }
    list
}

// The values of each place that stand in a combination that satisfies the rule.
fn supported(record: &Record, rule: &Rule, open: &[u64]) -> [u64; SHORT] {
    let mut kept = [0; SHORT];
    for values in Combinations::of(open) {
        if satisfied(record, rule, &values) {
            mark(&mut kept, values.as_slice());
        }
    }
    kept
}

fn mark(kept: &mut [u64; SHORT], values: &[u8]) {
    for (list, v) in kept.iter_mut().zip(values) {
        *list |= only(*v);
    }
}

// Whether the values of the rule's places satisfy it.
pub(crate) fn satisfied(record: &Record, rule: &Rule, values: &Values) -> bool {
    let values = values.as_slice();
    match &rule.test {
        Test::Tuples { sort, start, end } => {
            let is_listed = listed(record.cells(*start, *end), values);
            match sort {
                Sort::Allow => is_listed,
                Sort::Forbid => !is_listed,
            }
        }
        Test::AtMost {
            coefficients,
            bound,
        } => sum_of(coefficients.as_slice(), values) <= *bound,
    }
}

// Whether the values are one of the tuples, which are as long as they.
fn listed(cells: &[u8], values: &[u8]) -> bool {
    let arity = values.len();
    0 < arity && cells.chunks_exact(arity).any(|tuple| tuple == values)
}

// The coefficients are at most 1,000 and the values below 64, so that nothing wraps.
fn sum_of(coefficients: &[i32], values: &[u8]) -> i32 {
    coefficients.iter().zip(values).fold(0, |sum: i32, (c, v)| {
        sum.wrapping_add(c.wrapping_mul(i32::from(*v)))
    })
}
