// The program of document 01: reads one wcsp file from standard input and writes the best rota, or why there is none.
#![tactic(auto)]

ghost use Rattle.std.specs.Prelude.{◌≡◌, length};

use lines::LINES;

// One byte more than the program takes, so that a longer file is seen to be too long.
fn room() -> [u8; reply::TEXT + 1]
    ensures { 32769 ≡ length result }
{
    [0; reply::TEXT + 1]
}

fn main(rt: HostRuntime) {
    let mut text = room();
    let length = input::read_full(&mut rt.stdin(), &mut text);
    let mut out = [0; LINES];
    let count = reply::answer(&text[..length], &mut out);
    let _ = rt.write_all(&out[..count]);
}
