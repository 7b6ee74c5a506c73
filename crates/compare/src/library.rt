// The calls on the library's state, with document 01's numbers for its refusals.
ghost use Rattle.state.specs.Holds.{Reached};

use crate::calls::{Call, Decision, Linear, Number, Outcome, Sort, Table, Way};
use leximin::Solved;
use refusals::Refusal;
use state::{AfterCall, State};
use std::marker::Model;

// A state that calls on a new one have left, so that it may be lent to any other.
#[derive(Drop)]
pub(crate) struct Library {
    state: State,
}

impl Model for Library {
    ghost use Rattle.state.specs.declared.State.{State};
    ghost use Rattle.state.specs.Holds.{Reached};

    ghost Value = { State };

    ghost view = { λ l. l.state };

    ghost invariant = { λ l. Reached l.state };
}

impl From<Refusal> for Number {
    fn from(refusal: Refusal) -> Number {
        Number(u8::from(refusal))
    }
}

impl From<Solved> for Outcome {
    fn from(solved: Solved) -> Outcome {
        match solved {
            Solved::Found => Outcome::Found,
            Solved::Inconsistent => Outcome::Inconsistent,
        }
    }
}

impl From<Sort> for state::Sort {
    fn from(sort: Sort) -> state::Sort {
        match sort {
            Sort::Allow => state::Sort::Allow,
            Sort::Forbid => state::Sort::Forbid,
        }
    }
}

impl Library {
    #[tactic(auto, using(state::proofs::Runs::reached_new))]
    pub(crate) fn new() -> Self {
        Library {
            state: setup::new(),
        }
    }

    // The answer to a question for the values left.
    pub(crate) fn left_to(&self, x: u8) -> Result<u64, Number> {
        Ok(decide::values_left(self.state, x)?)
    }

    // Solves into the buffer's first places.
    pub(crate) fn solved(&self, buffer: &mut [u8]) -> Result<Outcome, Number> {
        Ok(leximin::solve(self.state, buffer)?.into())
    }

    #[tactic(auto, using(state::proofs::Runs::reached_after))]
    pub(crate) fn called(&mut self, call: &Call) -> Result<(), Number> {
        match call {
            Call::Variable(marks) => self.keep(setup::add_variable(self.state, *marks)),
            Call::Table(table) => self.add_table(table),
            Call::Linear(rule) => self.add_linear(rule),
            Call::Objectives(named) => {
                self.keep(setup::name_objectives(self.state, named.as_slice()))
            }
            Call::Decide(decision) => self.decide(*decision),
            Call::TakeBack(depth) => self.keep(decide::take_back(self.state, *depth)),
        }
    }

    #[tactic(auto, using(state::proofs::Runs::reached_after))]
    fn add_table(&mut self, table: &Table) -> Result<(), Number> {
        let scope = table.scope.as_slice();
        let cells = table.cells.as_slice();
        self.keep(state::add_table(self.state, table.sort.into(), scope, cells))
    }

    #[tactic(auto, using(state::proofs::Runs::reached_after))]
    fn add_linear(&mut self, rule: &Linear) -> Result<(), Number> {
        let scope = rule.scope.as_slice();
        let coefficients = rule.coefficients.as_slice();
        self.keep(state::add_linear(self.state, scope, coefficients, rule.bound))
    }

    #[tactic(auto, using(state::proofs::Runs::reached_after))]
    fn decide(&mut self, decision: Decision) -> Result<(), Number> {
        let x = decision.variable;
        let v = decision.value;
        match decision.way {
            Way::Pin => self.keep(decide::pin(self.state, x, v)),
            Way::Ban => self.keep(decide::ban(self.state, x, v)),
        }
    }

    // Keeps the state that a call left, and hands on its answer.
    fn keep(&mut self, after: AfterCall) -> Result<(), Number>
        requires { Reached after.state }
    {
        self.state = after.state;
        Ok(after.answer?)
    }
}
