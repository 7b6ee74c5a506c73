// Runs the program's library on each file that an argument names, and writes the name and the answer.
#![tactic(auto)]

ghost use Rattle.std.specs.Prelude.{◌≡◌, length};

use lines::LINES;
use std::env::FillError;
use std::fs::File;
use std::io::Read;
use std::rt::{Env, Files};
use std::{io, str};

// The most bytes of a file's name.
const PATH: usize = 4096;

// One byte more than the program takes.
fn room() -> [u8; reply::TEXT + 1]
    ensures { 32769 ≡ length result }
{
    [0; reply::TEXT + 1]
}

// Writes the answer to what `from` gives.
fn answer(rt: &impl Print, from: &mut impl Read) {
    let mut text = room();
    let length = input::read_full(from, &mut text);
    let mut out = [0; LINES];
    let count = reply::answer(&text[..length], &mut out);
    let _ = rt.write_all(&out[..count]);
}

// Opens a file; none where its name is no text, or where it can't be opened.
fn open<R: Files>(rt: &R, path: &[u8]) -> Option<R::File> {
    let name = str::from_utf8(path).ok()?;
    File::open(rt, name).ok()
}

// Writes the name of a file and the answer to it; one that can't be opened is empty.
fn show(rt: &(impl Files + Print), path: &[u8]) {
    let _ = rt.write_all(path);
    let _ = rt.write_all(b"\n");
    match open(rt, path) {
        Some(mut file) => answer(rt, &mut file),
        None => answer(rt, &mut io::empty()),
    }
}

fn main(rt: HostRuntime) {
    for i in 1..usize::MAX {
        let mut path = [0; PATH];
        match rt.arg(i, &mut path) {
            Ok(length) => show(&rt, &path[..length]),
            Err(FillError::TooLong) => show(&rt, b""),
            Err(FillError::NotPresent) => return,
        }
    }
}
