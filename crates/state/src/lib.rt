// The rota state, and adding rules to it.
#![tactic(auto)]

ghost use Rattle.state.specs.Promises.{IsAccepted, IsRefused, LendsRules, IsKindOf};

mod adding;
mod writing;

pub use adding::{add_linear, add_table};
use filters::{Head, Kind, Rules};
use refusals::Refusal;

// What stands, laid out in arrays of fixed lengths: counts, and zeros, or heads of no rule, past them.
#[derive(Clone, Copy)]
pub struct State {
    pub variables: usize,
    // a set of values for each variable
    pub declared: [u64; 32],
    pub rules: usize,
    pub heads: [Head; 48],
    pub used: usize,
    pub room: [u16; 4096],
    pub objectives: usize,
    pub objective: [u8; 16],
    pub depth: usize,
    // the values left to each variable after 0, 1, .. 32 decisions
    pub lists: [[u64; 32]; 33],
}

impl State {
    // The rules that stand.
    pub fn rules_held(&self) -> Rules<'_>
        ensures { LendsRules self.now result.heads.now result.room.now }
    {
        Rules {
            heads: &self.heads[..self.rules.min(meaning::RULES)],
            room: &self.room,
        }
    }
}

#[derive(Clone, Copy, Debug, PartialEq, Eq)]
pub enum Sort {
    Allow,
    Forbid,
}

impl From<Sort> for Kind {
    ghost from_gives = { IsKindOf };

    fn from(sort: Sort) -> Kind {
        match sort {
            Sort::Allow => Kind::Allow,
            Sort::Forbid => Kind::Forbid,
        }
    }
}

// What a call answers, and the state that it leaves.
#[derive(Clone, Copy)]
pub struct AfterCall {
    pub answer: Result<(), Refusal>,
    pub state: State,
}

impl AfterCall {
    // An accepted call, and what it leaves.
    pub fn accepted(state: State) -> AfterCall
        ensures { IsAccepted state result }
    {
        AfterCall {
            answer: Ok(()),
            state,
        }
    }

    // A refused call, and the state as it stood.
    pub fn refused(refusal: Refusal, state: State) -> AfterCall
        ensures { IsRefused refusal state result }
    {
        AfterCall {
            answer: Err(refusal),
            state,
        }
    }
}
