// A new state, its variables, and the objectives.
#![tactic(auto)]

ghost use Rattle.std.specs.Prelude.{◌≡◌, ◌≤◌, length};
ghost use Rattle.meaning.specs.Limits.{objective_limit};
ghost use Rattle.filters.specs.Layout.{padded};
ghost use Rattle.state.specs.Holds.{Reached};
ghost use Rattle.setup.specs.Promises.{IsNew, AddsVariable, NamesObjectives};

use arguments::any_unknown;
use blocks::BLOCKS;
use filters::NO_HEAD;
use meaning::{OBJECTIVES, ROOM, RULES, VARIABLES};
use refusals::Refusal;
use state::{AfterCall, State};

// The state in which nothing stands.
pub fn new() -> State
    ensures { IsNew result }
{
    State {
        variables: 0,
        declared: [0; VARIABLES],
        rules: 0,
        heads: [NO_HEAD; RULES],
        used: 0,
        room: [0; ROOM],
        objectives: 0,
        objective: [0; OBJECTIVES],
        depth: 0,
        lists: [[0; VARIABLES]; BLOCKS],
    }
}

// One variable more, with the values whose bits in marks are 1.
#[tactic(auto, unfolding(meaning::specs::Refusals::first))]
pub fn add_variable(s: State, marks: u64) -> AfterCall
    requires { Reached s }
    ensures { AddsVariable s marks result.answer result.state }
{
    let n = s.variables;
    if 0 < s.depth {
        return AfterCall::refused(Refusal::Decided, s);
    }
    if VARIABLES <= n {
        return AfterCall::refused(Refusal::Full, s);
    }
    let mut t = s;
    t.declared[n] = marks;
    t.lists[0][n] = marks;
    t.variables = n + 1;
    AfterCall::accepted(t)
}

// The variables whose values are compared, in this order; any named before are forgotten.
#[tactic(auto, unfolding(meaning::specs::Refusals::first))]
pub fn name_objectives(s: State, variables: &[u8]) -> AfterCall
    requires { Reached s }
    ensures { NamesObjectives s variables.now result.answer result.state }
{
    let count = variables.len();
    if count == 0 || OBJECTIVES < count {
        return AfterCall::refused(Refusal::WrongLength, s);
    }
    if any_unknown(variables, s.variables) {
        return AfterCall::refused(Refusal::NoSuchVariable, s);
    }
    let mut t = s;
    t.objective = sixteen(variables);
    t.objectives = count;
    AfterCall::accepted(t)
}

// The variables in sixteen places; later places are 0.
fn sixteen(variables: &[u8]) -> [u8; OBJECTIVES]
    requires { length variables.now ≤ objective_limit }
    ensures { result ≡ padded objective_limit variables.now }
{
    let mut named = [0; OBJECTIVES];
    named[..variables.len()].copy_from_slice(variables);
    named
}
