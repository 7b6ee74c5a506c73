// What was compared, counted and written.
use crate::calls::{Call, Decision, Linear, Number, Outcome, Sort, Table, Way};
use crate::lists::{at, has};
use crate::second::Lists;
use crate::second_checks::any_twice;
use std::fmt;

#[derive(Clone, Copy, Default)]
pub(crate) struct Counts {
    pub networks: u64,
    pub crowded: u64,
    pub calls: u64,
    pub lists: u64,
    pub solved: u64,
    pub found: u64,
    pub inconsistent: u64,
    pub variables: u64,
    pub empty_sets: u64,
    pub allowing: u64,
    pub forbidding: u64,
    pub empty_tables: u64,
    pub undeclared: u64,
    pub linear: u64,
    pub negative: u64,
    pub zero: u64,
    pub objectives: u64,
    pub repeated: u64,
    pub pins: u64,
    pub bans: u64,
    pub take_backs: u64,
    // by the refusals' numbers, of which the first is 1
    pub refused: [u64; 14],
    pub differences: u64,
}

pub(crate) fn count(number: &mut u64) {
    *number = number.wrapping_add(1);
}

pub(crate) fn count_if(number: &mut u64, test: bool) {
    if test {
        count(number);
    }
}

impl Counts {
    // Counts a call and its answer.
    pub(crate) fn add_call(&mut self, call: &Call, answer: Result<(), Number>, declared: &Lists) {
        count(&mut self.calls);
        match answer {
            Ok(()) => self.add_accepted(call, declared),
            Err(number) => self.add_refused(number),
        }
    }

    // Counts an accepted call by its kind, and by what is special about it.
    fn add_accepted(&mut self, call: &Call, declared: &Lists) {
        match call {
            Call::Variable(marks) => {
                count(&mut self.variables);
                count_if(&mut self.empty_sets, *marks == 0);
            }
            Call::Table(table) => self.add_table(table, declared),
            Call::Linear(rule) => self.add_linear(rule),
            Call::Objectives(named) => {
                count(&mut self.objectives);
                count_if(&mut self.repeated, any_twice(named.as_slice()));
            }
            Call::Decide(decision) => self.add_decision(*decision),
            Call::TakeBack(_) => count(&mut self.take_backs),
        }
    }

    fn add_table(&mut self, table: &Table, declared: &Lists) {
        match table.sort {
            Sort::Allow => count(&mut self.allowing),
            Sort::Forbid => count(&mut self.forbidding),
        }
        count_if(&mut self.empty_tables, table.cells.is_empty());
        count_if(&mut self.undeclared, any_undeclared(table, declared));
    }

    fn add_linear(&mut self, rule: &Linear) {
        let coefficients = rule.coefficients.as_slice();
        count(&mut self.linear);
        count_if(&mut self.negative, coefficients.iter().any(|c| *c < 0));
        count_if(&mut self.zero, coefficients.contains(&0));
    }

    fn add_decision(&mut self, decision: Decision) {
        match decision.way {
            Way::Pin => count(&mut self.pins),
            Way::Ban => count(&mut self.bans),
        }
    }

    fn add_refused(&mut self, number: Number) {
        if let Some(times) = self.refused.get_mut(usize::from(number.0)) {
            count(times);
        }
    }

    pub(crate) fn add_solved(&mut self, answer: Result<Outcome, Number>) {
        count(&mut self.solved);
        match answer {
            Ok(Outcome::Found) => count(&mut self.found),
            Ok(Outcome::Inconsistent) => count(&mut self.inconsistent),
            Err(number) => self.add_refused(number),
        }
    }
}

// Whether a tuple has a value that its variable doesn't declare.
fn any_undeclared(table: &Table, declared: &Lists) -> bool {
    let variables = table.scope.as_slice().iter().cycle();
    table
        .cells
        .as_slice()
        .iter()
        .zip(variables)
        .any(|(v, x)| !has(at(declared.as_slice(), *x), *v))
}

impl fmt::Display for Counts {
    fn fmt<W: fmt::Write>(&self, f: &mut fmt::Formatter<W>) -> fmt::Result {
        writeln!(f, "networks {}", self.networks)?;
        writeln!(f, "at the limits {}", self.crowded)?;
        writeln!(f, "calls {}", self.calls)?;
        writeln!(f, "lists compared {}", self.lists)?;
        writeln!(f, "solved {}", self.solved)?;
        writeln!(f, "found {}", self.found)?;
        writeln!(f, "inconsistent {}", self.inconsistent)?;
        writeln!(f, "variables {}", self.variables)?;
        writeln!(f, "variables with an empty set {}", self.empty_sets)?;
        writeln!(f, "allowing tables {}", self.allowing)?;
        writeln!(f, "forbidding tables {}", self.forbidding)?;
        writeln!(f, "tables without tuples {}", self.empty_tables)?;
        writeln!(f, "tables with undeclared values {}", self.undeclared)?;
        writeln!(f, "linear rules {}", self.linear)?;
        writeln!(
            f,
            "linear rules with a negative coefficient {}",
            self.negative
        )?;
        writeln!(f, "linear rules with a zero coefficient {}", self.zero)?;
        writeln!(f, "objective vectors {}", self.objectives)?;
        writeln!(f, "objective vectors with a repeat {}", self.repeated)?;
        writeln!(f, "pins {}", self.pins)?;
        writeln!(f, "bans {}", self.bans)?;
        writeln!(f, "take-backs {}", self.take_backs)?;
        for (number, times) in self.refused.iter().enumerate().skip(1) {
            writeln!(f, "refused {number}: {times}")?;
        }
        writeln!(f, "differences {}", self.differences)
    }
}
