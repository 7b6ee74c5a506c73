// A call on a network, as both solvers take it, and what they answer.
use crate::lists::{LONG, List, SHORT};

// Document 01's number of a refusal.
#[derive(Clone, Copy, PartialEq, Eq)]
pub(crate) struct Number(pub u8);

// What solving answers where it is not refused.
#[derive(Clone, Copy, PartialEq, Eq)]
pub(crate) enum Outcome {
    Found,
    Inconsistent,
}

#[derive(Clone, Copy)]
pub(crate) enum Call {
    Variable(u64),
    Table(Table),
    Linear(Linear),
    Objectives(Scope),
    Decide(Decision),
    TakeBack(usize),
}

// The variables that a call names.
pub(crate) type Scope = List<u8, SHORT>;

#[derive(Clone, Copy)]
pub(crate) enum Sort {
    Allow,
    Forbid,
}

#[derive(Clone, Copy)]
pub(crate) struct Table {
    pub sort: Sort,
    pub scope: Scope,
    // the tuples, one behind the other
    pub cells: List<u8, LONG>,
}

#[derive(Clone, Copy)]
pub(crate) struct Linear {
    pub scope: Scope,
    pub coefficients: Coefficients,
    pub bound: i32,
}

pub(crate) type Coefficients = List<i32, SHORT>;

#[derive(Clone, Copy)]
pub(crate) enum Way {
    Pin,
    Ban,
}

#[derive(Clone, Copy)]
pub(crate) struct Decision {
    pub way: Way,
    pub variable: u8,
    pub value: u8,
}
