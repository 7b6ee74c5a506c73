// Solving: the leximin-best rota, found by raising the thresholds place by place (Algorithm 4).
#![tactic(auto)]

ghost use Rattle.std.specs.Prelude.{◌≡◌, ◌<◌, length, get_or, take};
ghost use Rattle.meaning.specs.Rules.{values_at};
ghost use Rattle.meaning.specs.Order.{sorted};
ghost use Rattle.filters.specs.Layout.{rules_at};
ghost use Rattle.state.specs.Holds.{Reached};
ghost use Rattle.search.specs.Search.{Given};
ghost use Rattle.leximin.specs.Solving.{Named, Climbed, SolvedBy, Solves};

use blocks::lists_after;
use filters::Rules;
use meaning::OBJECTIVES;
use profile::sorted_up;
use refusals::Refusal;
use search::{Rota, first_reaching};
use state::State;

// What solving finds.
#[derive(Clone, Copy, Debug, PartialEq, Eq)]
pub enum Solved {
    Found,
    Inconsistent,
}

// Writes the best rota into the buffer's first places; where there is none, or the call is refused, nothing is written.
#[tactic(auto, unfolding(meaning::specs::Refusals::first))]
pub fn solve(s: State, buffer: &mut [u8]) -> Result<Solved, Refusal>
    requires { Reached s }
    ensures { Solves s buffer.old result buffer.new }
{
    let n = s.variables;
    let count = s.objectives;
    if count == 0 {
        return Err(Refusal::NoObjective);
    }
    if buffer.len() < n {
        return Err(Refusal::ShortBuffer);
    }
    let best = best_of(s);
    let Some(values) = best else {
        return Ok(Solved::Inconsistent);
    };
    buffer[..n].copy_from_slice(&values[..n]);
    Ok(Solved::Found)
}

// The best rota of what stands.
fn best_of(s: State) -> Option<Rota>
    requires { Reached s }
    ensures { SolvedBy s result }
{
    let goals = &s.objective[..s.objectives];
    let lists = lists_after(&s.lists, s.depth);
    best(s.rules_held(), goals, s.variables, lists)
}

// The best rota within the lists. The i-th threshold rises to the i-th of the sorted values found, and by one more for as long as a rota reaches it.
fn best(rules: Rules<'_>, goals: &[u8], n: usize, lists: [u64; 32]) -> Option<Rota>
    requires { Given rules.heads.now rules.room.now goals.now n lists }
    ensures { Climbed (rules_at rules.entry.heads.now rules.entry.room.now) goals.now n lists result }
{
    let count = goals.len();
    let mut floors = [0u8; OBJECTIVES];
    let mut rota = first_reaching(rules, goals, n, lists, &floors[..count])?;
    let mut i = 0;
    while i < count {
        let reached = sorted_at(goals, rota, i);
        floors[i] = reached + 1;
        if let Some(higher) = first_reaching(rules, goals, n, lists, &floors[..count]) {
            rota = higher;
        } else {
            floors[i] = reached;
            i += 1;
        }
    }
    Some(rota)
}

// The i-th of the objectives' values, sorted upwards.
fn sorted_at(goals: &[u8], values: Rota, i: usize) -> u8
    requires { Named goals.now × (i < length goals.now) }
    ensures { result ≡ get_or (sorted (values_at values goals.now)) i 0 }
{
    let profile = profile_of(goals, values);
    let upwards = sorted_up(&profile[..goals.len()]);
    let sorted = upwards.values;
    sorted[i]
}

// The objectives' values, in the first places.
fn profile_of(goals: &[u8], values: Rota) -> [u8; OBJECTIVES]
    requires { Named goals.now }
    ensures { take (length goals.now) result ≡ values_at values goals.now }
{
    let mut profile = [0u8; OBJECTIVES];
    for (j, &goal) in goals.iter().enumerate() {
        profile[j] = values[goal as usize];
    }
    profile
}
