// Calls that add variables and rules, and name the objectives.
use crate::faults::BadLine;
use crate::keeping::Desk;
use crate::lists::{self, COLON};
use crate::numbers::{mask, number};
use crate::saying::Reply;
use crate::words::Words;
use state::Sort;

// `var HEXMASK`
#[tactic(auto, using(state::proofs::Runs::reached_after))]
pub(crate) fn add_variable(desk: &mut Desk, words: Words) -> Result<Reply, BadLine> {
    let marks = mask(words.only()?)?;
    let after = setup::add_variable(desk.state, marks);
    Ok(desk.keep(after))
}

// `table allow|forbid VARIABLES.. : CELLS..`
#[tactic(auto, using(state::proofs::Runs::reached_after))]
pub(crate) fn add_table(desk: &mut Desk, mut words: Words) -> Result<Reply, BadLine> {
    let sort = match words.word()? {
        b"allow" => Sort::Allow,
        b"forbid" => Sort::Forbid,
        _ => return Err(BadLine),
    };
    let mut scope = lists::room(0);
    let scope = lists::read(&mut words, COLON, &mut scope)?;
    let mut cells = lists::room(0);
    let cells = lists::read(&mut words, None, &mut cells)?;
    let after = state::add_table(desk.state, sort, scope, cells);
    Ok(desk.keep(after))
}

// `linear VARIABLES.. : COEFFICIENTS.. : BOUND`
#[tactic(auto, using(state::proofs::Runs::reached_after))]
pub(crate) fn add_linear(desk: &mut Desk, mut words: Words) -> Result<Reply, BadLine> {
    let mut scope = lists::room(0);
    let scope = lists::read(&mut words, COLON, &mut scope)?;
    let mut coefficients = lists::room(0);
    let coefficients = lists::read(&mut words, COLON, &mut coefficients)?;
    let bound = number(words.only()?)?;
    let after = state::add_linear(desk.state, scope, coefficients, bound);
    Ok(desk.keep(after))
}

// `obj VARIABLES..`
#[tactic(auto, using(state::proofs::Runs::reached_after))]
pub(crate) fn name_objectives(desk: &mut Desk, mut words: Words) -> Result<Reply, BadLine> {
    let mut variables = lists::room(0);
    let variables = lists::read(&mut words, None, &mut variables)?;
    let after = setup::name_objectives(desk.state, variables);
    Ok(desk.keep(after))
}
