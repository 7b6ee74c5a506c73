// A second solver, by document 01 and plain enumeration: what stands, and what an accepted call changes.
use crate::calls::{Call, Coefficients, Decision, Linear, Number, Scope, Sort, Table, Way};
use crate::lists::List;
use crate::second_checks::tested;

// A set of values for each variable.
pub(crate) type Lists = List<u64, 32>;

#[derive(Clone, Copy)]
pub(crate) struct Rule {
    pub scope: Scope,
    pub test: Test,
}

// What a rule asks of the values of its variables.
#[derive(Clone, Copy)]
pub(crate) enum Test {
    // Whether they are a tuple: the tuples stand in the room from `start` to before `end`.
    Tuples {
        sort: Sort,
        start: usize,
        end: usize,
    },
    // The sum of their products with the coefficients is at most the bound.
    AtMost {
        coefficients: Coefficients,
        bound: i32,
    },
}

#[derive(Clone, Copy)]
pub(crate) struct Record {
    pub declared: Lists,
    pub rules: List<Rule, 48>,
    // the cells of all tables
    pub room: List<u8, 4096>,
    // numbers held as document 01 counts them
    pub held: usize,
    pub objectives: Scope,
    pub decided: List<Decision, 32>,
}

impl Record {
    pub(crate) fn new() -> Record {
        Record {
            declared: List::new(0),
            rules: List::new(no_rule()),
            room: List::new(0),
            held: 0,
            objectives: List::new(0),
            decided: List::new(Decision {
                way: Way::Pin,
                variable: 0,
                value: 0,
            }),
        }
    }

    pub(crate) fn variables(&self) -> u8 {
        u8::try_from(self.declared.len()).unwrap_or(u8::MAX)
    }

    pub(crate) fn decisions(&self) -> u8 {
        u8::try_from(self.decided.len()).unwrap_or(u8::MAX)
    }

    // The cells of a table.
    pub(crate) fn cells(&self, start: usize, end: usize) -> &[u8] {
        self.room.as_slice().get(start..end).unwrap_or(&[])
    }

    // Answers the call; an accepted one changes what stands.
    pub(crate) fn called(&mut self, call: &Call) -> Result<(), Number> {
        tested(self, call)?;
        match call {
            Call::Variable(marks) => self.declared.push(*marks),
            Call::Table(table) => self.add_table(table),
            Call::Linear(rule) => self.add_linear(rule),
            Call::Objectives(named) => self.objectives = *named,
            Call::Decide(decision) => self.decided.push(*decision),
            Call::TakeBack(depth) => self.decided.truncate(*depth),
        }
        Ok(())
    }

    fn add_table(&mut self, table: &Table) {
        let start = self.room.len();
        for cell in table.cells.as_slice() {
            self.room.push(*cell);
        }
        let end = self.room.len();
        let test = Test::Tuples {
            sort: table.sort,
            start,
            end,
        };
        let scope = table.scope;
        self.rules.push(Rule { scope, test });
        self.hold(table_numbers(table));
    }

    fn add_linear(&mut self, rule: &Linear) {
        let scope = rule.scope;
        let test = Test::AtMost {
            coefficients: rule.coefficients,
            bound: rule.bound,
        };
        self.rules.push(Rule { scope, test });
        self.hold(linear_numbers(rule));
    }

    // So many numbers more are held.
    fn hold(&mut self, more: usize) {
        self.held = self.held.wrapping_add(more);
    }
}

// The numbers that a table takes: its variables, and the cells of its tuples.
pub(crate) fn table_numbers(table: &Table) -> usize {
    table.scope.len().wrapping_add(table.cells.len())
}

// The numbers that a linear rule takes: its variables, their coefficients, and the bound.
pub(crate) fn linear_numbers(rule: &Linear) -> usize {
    rule.scope.len().wrapping_mul(2).wrapping_add(1)
}

fn no_rule() -> Rule {
    Rule {
        scope: List::new(0),
        test: Test::AtMost {
            coefficients: List::new(0),
            bound: 0,
        },
    }
}
