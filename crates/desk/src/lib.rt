// Pins, bans and take-backs on a rota state that stays with the desk program, which lends it for each call.
#![tactic(auto)]

ghost use Rattle.state.specs.Holds.{Reached};
ghost use Rattle.decide.specs.Decisions.{Pins, Bans, TakesBack};

use refusals::Refusal;
use state::{AfterCall, State};

// Keeps the value v of the variable x alone.
pub fn pin(lent: &mut State, x: u8, v: u8) -> Result<(), Refusal>
    requires { Reached lent.old }
    ensures { Pins lent.old x v result lent.new }
{
    called(lent, |s| decide::pin(s, x, v))
}

// Removes the value v of the variable x.
pub fn ban(lent: &mut State, x: u8, v: u8) -> Result<(), Refusal>
    requires { Reached lent.old }
    ensures { Bans lent.old x v result lent.new }
{
    called(lent, |s| decide::ban(s, x, v))
}

// Keeps the first k decisions and drops the later ones.
pub fn take_back(lent: &mut State, k: usize) -> Result<(), Refusal>
    requires { Reached lent.old }
    ensures { TakesBack lent.old k result lent.new }
{
    called(lent, |s| decide::take_back(s, k))
}

// Makes a call on the state lent, and leaves there what the call leaves.
fn called<F: FnOnce(State) -> AfterCall>(lent: &mut State, call: F) -> Result<(), Refusal>
    requires { F.pre call lent.old }
    ensures { F.post call lent.old (record { answer = result; state = lent.new }) }
{
    let after = call(*lent);
    *lent = after.state;
    after.answer
}
