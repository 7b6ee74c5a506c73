// Pins, bans, taking back, and the values left.
#![tactic(auto)]

ghost use Rattle.std.specs.Prelude.{◌<◌};
ghost use Rattle.meaning.specs.Limits.{decision_limit};
ghost use Rattle.state.specs.Holds.{Reached};
ghost use Rattle.decide.specs.Decisions.{Pins, Bans, TakesBack, TellsLeft, Tested, Decided, Narrowed};

use blocks::{clear_after, list_of, lists_after, put_lists};
use filters::settled;
use meaning::DECISIONS;
use refusals::Refusal;
use state::{AfterCall, State};
use values::VALUES;

// Keeps the value v of the variable x alone.
pub fn pin(s: State, x: u8, v: u8) -> AfterCall
    requires { Reached s }
    ensures { Pins s x v result.answer result.state }
{
    let at = x as usize;
    let kept = v as usize;
    decided(s, at, kept, values::only(kept))
}

// Removes the value v of the variable x.
pub fn ban(s: State, x: u8, v: u8) -> AfterCall
    requires { Reached s }
    ensures { Bans s x v result.answer result.state }
{
    let at = x as usize;
    let dropped = v as usize;
    let left = list_of(&s.lists, s.depth, at);
    decided(s, at, dropped, values::without(left, dropped))
}

// A decision on the value v of the variable x, which keeps `kept` of x's values.
fn decided(s: State, x: usize, v: usize, kept: u64) -> AfterCall
    requires { Reached s }
    ensures { Decided s x v kept result.answer result.state }
{
    if let Err(refusal) = tested(&s, x, v) {
        return AfterCall::refused(refusal, s);
    }
    AfterCall::accepted(narrowed(s, x, kept))
}

// The tests of a pin or a ban, in document 01's order.
#[tactic(auto, unfolding(meaning::specs::Refusals::first))]
fn tested(s: &State, x: usize, v: usize) -> Result<(), Refusal>
    ensures { Tested s.now x v result }
{
    if s.variables <= x {
        return Err(Refusal::NoSuchVariable);
    }
    if VALUES <= v {
        return Err(Refusal::OutOfRange);
    }
    if DECISIONS <= s.depth {
        return Err(Refusal::TooManyDecisions);
    }
    if !values::has(list_of(&s.lists, s.depth, x), v) {
        return Err(Refusal::NotLeft);
    }
    Ok(())
}

// One decision more: x's list becomes `kept`, and the others follow where that removes something.
fn narrowed(s: State, x: usize, kept: u64) -> State
    requires reached { Reached s }
    requires x_lt_variables { (x < s.variables) × (s.depth < decision_limit) }
    ensures { Narrowed s x kept result }
{
    let mut t = s;
    let depth = t.depth;
    let rules = t.rules_held();
    let mut left = lists_after(&t.lists, depth);
    let found = left[x];
    if found != kept {
        left[x] = kept;
        left = settled(rules, left);
    }
    put_lists(&mut t.lists, depth + 1, left);
    t.depth = depth + 1;
    t
}

// Keeps the first k decisions and drops the later ones.
#[tactic(auto, unfolding(meaning::specs::Refusals::first))]
pub fn take_back(s: State, k: usize) -> AfterCall
    requires { Reached s }
    ensures { TakesBack s k result.answer result.state }
{
    if s.depth < k {
        return AfterCall::refused(Refusal::TooDeep, s);
    }
    let mut t = s;
    clear_after(&mut t.lists, k);
    t.depth = k;
    AfterCall::accepted(t)
}

// The values left to the variable x.
#[tactic(auto, using(crate::proofs::Decisions::none_past), unfolding(meaning::specs::Refusals::first))]
pub fn values_left(s: State, x: u8) -> Result<u64, Refusal>
    requires { Reached s }
    ensures { TellsLeft s x result }
{
    let at = x as usize;
    if s.variables <= at {
        return Err(Refusal::NoSuchVariable);
    }
    Ok(list_of(&s.lists, s.depth, at))
}
