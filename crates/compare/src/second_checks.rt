// The second solver's tests of each call, in document 01's order.
use crate::calls::{Call, Decision, Linear, Number, Scope, Table};
use crate::lists::{at, has};
use crate::second::{Record, linear_numbers, table_numbers};
use crate::second_filter::left;

// Why a call is refused, with document 01's numbers.
#[derive(Clone, Copy)]
pub(crate) enum Refusal {
    NoSuchVariable = 1,
    VariableTwice = 2,
    WrongLength = 3,
    OutOfRange = 4,
    TupleTwice = 5,
    Full = 6,
    NotLeft = 8,
    TooManyDecisions = 9,
    TooDeep = 10,
    ShortBuffer = 11,
    NoObjective = 12,
    Decided = 13,
}

impl From<Refusal> for Number {
    fn from(refusal: Refusal) -> Number {
        Number(refusal as u8)
    }
}

// Whether the call is accepted.
pub(crate) fn tested(record: &Record, call: &Call) -> Result<(), Refusal> {
    match call {
        Call::Variable(_) => variable_tested(record),
        Call::Table(table) => table_tested(record, table),
        Call::Linear(rule) => linear_tested(record, rule),
        Call::Objectives(named) => objectives_tested(record, named),
        Call::Decide(decision) => decision_tested(record, *decision),
        Call::TakeBack(depth) => take_back_tested(record, *depth),
    }
}

fn variable_tested(record: &Record) -> Result<(), Refusal> {
    if !record.decided.is_empty() {
        return Err(Refusal::Decided);
    }
    if record.declared.is_full() {
        return Err(Refusal::Full);
    }
    Ok(())
}

fn table_tested(record: &Record, table: &Table) -> Result<(), Refusal> {
    let arity = table.scope.len();
    let cells = table.cells.as_slice();
    if !record.decided.is_empty() {
        return Err(Refusal::Decided);
    }
    if arity == 0 || 8 < arity || cells.len() % arity != 0 {
        return Err(Refusal::WrongLength);
    }
    scope_tested(record, &table.scope)?;
    if cells.iter().any(|v| 64 <= *v) {
        return Err(Refusal::OutOfRange);
    }
    if tuple_twice(cells, arity) {
        return Err(Refusal::TupleTwice);
    }
    room_tested(record, table_numbers(table))
}

fn linear_tested(record: &Record, rule: &Linear) -> Result<(), Refusal> {
    let arity = rule.scope.len();
    let coefficients = rule.coefficients.as_slice();
    if !record.decided.is_empty() {
        return Err(Refusal::Decided);
    }
    if arity == 0 || 32 < arity || coefficients.len() != arity {
        return Err(Refusal::WrongLength);
    }
    scope_tested(record, &rule.scope)?;
    if coefficients.iter().any(|c| 1000 < c.unsigned_abs())
        || 5_000_000 < rule.bound.unsigned_abs()
    {
        return Err(Refusal::OutOfRange);
    }
    room_tested(record, linear_numbers(rule))
}

// Whether a rule's variables are known, and none stands twice.
fn scope_tested(record: &Record, scope: &Scope) -> Result<(), Refusal> {
    if any_unknown(scope, record.variables()) {
        return Err(Refusal::NoSuchVariable);
    }
    if any_twice(scope.as_slice()) {
        return Err(Refusal::VariableTwice);
    }
    Ok(())
}

// Whether a rule more is held that takes so many numbers.
fn room_tested(record: &Record, more: usize) -> Result<(), Refusal> {
    if record.rules.is_full() || 4096 < record.held.wrapping_add(more) {
        return Err(Refusal::Full);
    }
    Ok(())
}

fn objectives_tested(record: &Record, named: &Scope) -> Result<(), Refusal> {
    if named.is_empty() || 16 < named.len() {
        return Err(Refusal::WrongLength);
    }
    if any_unknown(named, record.variables()) {
        return Err(Refusal::NoSuchVariable);
    }
    Ok(())
}

fn decision_tested(record: &Record, decision: Decision) -> Result<(), Refusal> {
    if record.variables() <= decision.variable {
        return Err(Refusal::NoSuchVariable);
    }
    if 64 <= decision.value {
        return Err(Refusal::OutOfRange);
    }
    if record.decided.is_full() {
        return Err(Refusal::TooManyDecisions);
    }
    let list = at(left(record).as_slice(), decision.variable);
    if !has(list, decision.value) {
        return Err(Refusal::NotLeft);
    }
    Ok(())
}

fn take_back_tested(record: &Record, depth: usize) -> Result<(), Refusal> {
    if record.decided.len() < depth {
        return Err(Refusal::TooDeep);
    }
    Ok(())
}

fn any_unknown(scope: &Scope, variables: u8) -> bool {
    scope.as_slice().iter().any(|x| variables <= *x)
}

pub(crate) fn any_twice(scope: &[u8]) -> bool {
    for (i, x) in scope.iter().enumerate() {
        if scope[..i].contains(x) {
            return true;
        }
    }
    false
}

// Whether one of the tuples, so many cells each, stands twice.
fn tuple_twice(cells: &[u8], arity: usize) -> bool {
    if arity == 0 {
        return false;
    }
    for (i, tuple) in cells.chunks_exact(arity).enumerate() {
        if cells.chunks_exact(arity).take(i).any(|t| t == tuple) {
            return true;
        }
    }
    false
}
