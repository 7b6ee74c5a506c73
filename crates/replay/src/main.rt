// Reads a script of calls from standard input, one to a line, and writes a line for each: what the library answers.
#![tactic(auto)]

ghost use Rattle.std.specs.Prelude.{◌≡◌, length};

use faults::{BadLine, Fault};
use keeping::Desk;
use saying::Reply;
use words::Words;

mod adding;
mod asking;
mod deciding;
mod faults;
mod keeping;
mod lending;
mod lists;
mod numbers;
mod saying;
mod words;

// The most bytes of a script.
const SCRIPT: usize = 32_768;

// One byte more than the program takes, so that a longer script is seen to be too long.
fn room() -> [u8; SCRIPT + 1]
    ensures { 32769 ≡ length result }
{
    [0; SCRIPT + 1]
}

// Makes the call that a line says.
fn answer(desk: &mut Desk, line: &[u8]) -> Result<Reply, BadLine> {
    let mut words = Words::of(line);
    match words.word()? {
        b"new" => keeping::renew(desk, words),
        b"var" => adding::add_variable(desk, words),
        b"table" => adding::add_table(desk, words),
        b"linear" => adding::add_linear(desk, words),
        b"obj" => adding::name_objectives(desk, words),
        b"pin" => deciding::pin(desk, words),
        b"ban" => deciding::ban(desk, words),
        b"back" => deciding::take_back(desk, words),
        b"left" => asking::values_left(desk, words),
        b"solve" => asking::solve(desk, words),
        b"compare" => asking::compare(words),
        _ => Err(BadLine),
    }
}

// Runs a script line by line, to its end or to the first line that is no call.
fn run(rt: &HostRuntime, script: &[u8]) -> Result<(), Fault> {
    let mut desk = Desk::new();
    let mut at = 0;
    for line in script.split_inclusive(|byte| *byte == b'\n') {
        let reply = answer(&mut desk, line).map_err(|_| Fault::BadScript { at })?;
        let _ = println!(rt; "{reply}");
        at += line.len();
    }
    Ok(())
}

// Reads the script, and runs it where it is not too long.
fn run_input(rt: &HostRuntime) -> Result<(), Fault> {
    let mut text = room();
    let length = input::read_full(&mut rt.stdin(), &mut text);
    if SCRIPT < length {
        return Err(Fault::TooLong);
    }
    run(rt, &text[..length])
}

fn main(rt: HostRuntime) {
    if let Err(fault) = run_input(&rt) {
        let _ = println!(rt; "{fault}");
    }
}
