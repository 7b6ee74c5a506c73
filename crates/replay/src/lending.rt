// The state that the program keeps is lent to `desk` for each pin, ban and take-back.
ghost use Rattle.decide.specs.Decisions.{Pins, Bans, TakesBack};

use crate::keeping::Desk;
use refusals::Refusal;

impl Desk {
    // Keeps the value v of the variable x alone.
    #[tactic(auto, using(state::proofs::Runs::reached_after))]
    pub(crate) fn pin(&mut self, x: u8, v: u8) -> Result<(), Refusal>
        ensures { Pins self.old x v result self.new }
    {
        desk::pin(&mut self.state, x, v)
    }

    // Removes the value v of the variable x.
    #[tactic(auto, using(state::proofs::Runs::reached_after))]
    pub(crate) fn ban(&mut self, x: u8, v: u8) -> Result<(), Refusal>
        ensures { Bans self.old x v result self.new }
    {
        desk::ban(&mut self.state, x, v)
    }

    // Keeps the first k decisions and drops the later ones.
    #[tactic(auto, using(state::proofs::Runs::reached_after))]
    pub(crate) fn take_back(&mut self, k: usize) -> Result<(), Refusal>
        ensures { TakesBack self.old k result self.new }
    {
        desk::take_back(&mut self.state, k)
    }
}
