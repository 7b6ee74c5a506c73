// Bans the values 0 to 32 of one variable in turn, takes back to depth 31, and bans once more. It writes a letter for each
// ban: y accepted, n refused because 32 decisions are outstanding, ? for any other refusal.
#![tactic(auto)]

ghost use Rattle.state.specs.Holds.{Reached};

use refusals::Refusal;
use state::State;

fn letter(answer: Result<(), Refusal>) -> u8 {
    match answer {
        Ok(()) => b'y',
        Err(Refusal::TooManyDecisions) => b'n',
        Err(_) => b'?',
    }
}

// Bans a value of the variable 0, and answers with the ban's letter.
fn ban(state: &mut State, v: u8) -> u8
    requires { Reached state.old }
    ensures { Reached state.new }
{
    let after = decide::ban(*state, 0, v);
    *state = after.state;
    letter(after.answer)
}

fn main(rt: HostRuntime) {
    let mut state = setup::add_variable(setup::new(), u64::MAX).state;
    let mut line = [b'\n'; 35];
    for v in 0..33 {
        line[usize::from(v)] = ban(&mut state, v);
    }
    state = decide::take_back(state, 31).state;
    line[33] = ban(&mut state, 63);
    let _ = rt.write_all(&line);
}
