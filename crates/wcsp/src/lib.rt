// Reading wcsp files (document 01): left to right, to the first fault or to the state that the file's calls leave.
#![tactic(auto)]

ghost use Rattle.wcsp.specs.Promises.{Reads};

use reading::Fault;
use state::State;

mod header;
mod listing;
mod loading;
mod scopes;
mod sizes;
mod tables;

use loading::load;

// What a file comes to, how many variables it has, and the state.
#[derive(Clone, Copy)]
pub struct Loaded {
    pub outcome: Result<(), Fault>,
    pub variables: usize,
    pub state: State,
}

// Reads a file of any length.
pub fn read(text: &[u8]) -> Loaded
    ensures { Reads text.now result }
{
    match load(text) {
        Ok(file) => Loaded {
            outcome: Ok(()),
            variables: file.what.variables,
            state: file.what.state,
        },
        Err(fault) => Loaded {
            outcome: Err(fault),
            variables: 0,
            state: setup::new(),
        },
    }
}
