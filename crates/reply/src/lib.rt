// What the program answers to a file (document 01, "The program"): the file is read, its objectives are named, and it is solved.
#![tactic(auto)]

ghost use Rattle.std.specs.Prelude.{◌≡◌, ◌≤◌, ◌<◌, min, length, take};
ghost use Rattle.meaning.specs.Limits.{variable_limit, objective_limit};
ghost use Rattle.meaning.specs.Order.{sorted};
ghost use Rattle.state.specs.Holds.{Reached};
ghost use Rattle.lines.specs.Lines.{found_lines};
ghost use Rattle.lines.specs.Writing.{Written};
ghost use Rattle.reply.specs.Replies.{Replies, Answers, SolvedLines};

use leximin::Solved;
use lines::LINES;
use meaning::{OBJECTIVES, VARIABLES};
use state::State;

// The most bytes that the program reads.
pub const TEXT: usize = 32_768;

// How many of n variables are objectives: the first 16, or all where there are fewer.
fn objective_count(n: usize) -> usize
    ensures { result ≡ min n objective_limit }
{
    n.min(OBJECTIVES)
}

// Writes the best rota of n variables, with the values of the first 16 or fewer upwards.
fn write_rota(values: [u8; VARIABLES], n: usize, out: &mut [u8; LINES]) -> usize
    requires { (0 < n) × (n ≤ variable_limit) }
    ensures { Written out.old (found_lines (take n values) (sorted (take (min n objective_limit) values))) out.new result }
{
    let count = objective_count(n);
    let sorted = profile::sorted_up(&values[..count]);
    let upwards = sorted.values;
    lines::write_found(&values[..n], &upwards[..count], out)
}

// Names the first 16 or fewer of n variables as objectives, solves, and writes what comes of it.
fn write_solved(state: State, n: usize, out: &mut [u8; LINES]) -> usize
    requires { Reached state × (0 < n) × (n ≤ variable_limit) }
    ensures { SolvedLines state n out.old out.new result × (result ≤ length out.new) }
{
    let first: [u8; OBJECTIVES] = [0, 1, 2, 3, 4, 5, 6, 7, 8, 9, 10, 11, 12, 13, 14, 15];
    let count = objective_count(n);
    let named = setup::name_objectives(state, &first[..count]);
    let ready = named.state;
    let mut values = [0u8; VARIABLES];
    let solved = leximin::solve(ready, &mut values);
    match solved {
        Ok(Solved::Found) => write_rota(values, n, out),
        Ok(Solved::Inconsistent) => lines::write_inconsistent(out),
        Err(_) => 0,
    }
}

// Writes the answer to a file of any length at the buffer's start, and says how many bytes it has.
pub fn reply(text: &[u8], out: &mut [u8; LINES]) -> usize
    ensures { Replies text.now out.old out.new result }
{
    let loaded = wcsp::read(text);
    match loaded.outcome {
        Ok(()) => write_solved(loaded.state, loaded.variables, out),
        Err(fault) => lines::write_refused(u8::from(fault.refusal), fault.at, out),
    }
}

// The same, where a file of more than 32,768 bytes is too long.
pub fn answer(text: &[u8], out: &mut [u8; LINES]) -> usize
    ensures { Answers text.now out.old out.new result }
{
    if TEXT < text.len() {
        return lines::write_too_long(out);
    }
    reply(text, out)
}
