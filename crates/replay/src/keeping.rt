// What the program keeps between the lines of a script.
ghost use Rattle.std.specs.Prelude.{◌≡◌};
ghost use Rattle.state.specs.Holds.{Reached};

use crate::faults::BadLine;
use crate::saying::Reply;
use crate::words::Words;
use state::{AfterCall, State};
use std::marker::Model;

#[derive(Drop)]
pub(crate) struct Desk {
    pub(crate) state: State,
}

// Calls on a new state have left the state that is kept, so that it may be lent to any other.
impl Model for Desk {
    ghost use Rattle.state.specs.declared.State.{State};
    ghost use Rattle.state.specs.Holds.{Reached};

    ghost Value = { State };

    ghost view = { λ d. d.state };

    ghost invariant = { λ d. Reached d.state };
}

impl Desk {
    #[tactic(auto, using(state::proofs::Runs::reached_new))]
    pub(crate) fn new() -> Self {
        Desk {
            state: setup::new(),
        }
    }

    // Keeps the state that a call has left, and hands on what the call answered.
    pub(crate) fn keep(&mut self, after: AfterCall) -> Reply
        requires { Reached after.state }
        ensures { self.new ≡ after.state }
    {
        self.state = after.state;
        after.answer.into()
    }
}

// `new`: nothing stands any more.
pub(crate) fn renew(desk: &mut Desk, words: Words) -> Result<Reply, BadLine> {
    words.end()?;
    *desk = Desk::new();
    Ok(Reply::Done)
}
