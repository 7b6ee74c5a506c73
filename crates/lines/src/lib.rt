// The lines that the program writes (document 01), at the start of a lent buffer. Each function answers how many bytes it wrote.
#![tactic(auto)]

ghost use Rattle.std.specs.Prelude.{◌≡◌, ◌∷◌, []};
ghost use Rattle.lines.specs.Lines.{field, numbers};
ghost use Rattle.lines.specs.Writing.{HasRoom, Puts};
ghost use Rattle.lines.specs.Promises.{WritesTooLong, WritesInconsistent, WritesRefused, WritesFound};

use itoa::Buffer;
use meaning::{OBJECTIVES, VARIABLES};

// The buffer's bytes: room for `found` with 32 values and 16 objective values.
pub const LINES: usize = 256;

// The buffer that is written, and the place of the next byte.
#[derive(Drop)]
struct Writer<'a> {
    out: &'a mut [u8],
    at: usize,
}

impl<'a> Writer<'a> {
    // Begins at the buffer's start.
    fn new(out: &'a mut [u8]) -> Writer<'a>
        ensures same_reference { result.out.ghost_name ≡ out.entry.ghost_name }
        ensures begins { (result.out.now ≡ out.old) × (result.at ≡ 0) }
    {
        Writer { out, at: 0 }
    }

    // Writes a byte.
    fn byte(&mut self, byte: u8)
        requires { HasRoom self.old (byte ∷ []) }
        ensures { Puts self.old (byte ∷ []) self.new }
    {
        self.out[self.at] = byte;
        self.at += 1;
    }

    // Writes a word's bytes.
    #[tactic(auto, using(crate::proofs::Putting::put_part))]
    fn word(&mut self, word: &[u8])
        requires { HasRoom self.old word.now }
        ensures { Puts self.old word.now self.new }
    {
        let end = self.at + word.len();
        self.out[self.at..end].copy_from_slice(word);
        self.at = end;
    }

    // Writes a number after one space.
    #[tactic(auto, using(crate::proofs::Digits::decimal_same, crate::proofs::Putting::puts_both))]
    fn number(&mut self, n: usize)
        requires { HasRoom self.old (field n) }
        ensures { Puts self.old (field n) self.new }
    {
        let mut digits = Buffer::new();
        self.byte(b' ');
        self.word(digits.format(n).as_bytes());
    }

    // Writes each number after one space.
    #[tactic(auto, using(crate::proofs::Digits::numbers_room))]
    fn numbers(&mut self, ns: &[u8])
        requires { HasRoom self.old (numbers ns.now) }
        ensures { Puts self.old (numbers ns.now) self.new }
    {
        for n in ns {
            self.number(usize::from(*n));
        }
    }
}

// The file has more bytes than the program takes.
#[tactic(auto, using(crate::proofs::Putting::wrote), unfolding(crate::specs::Lines::too_long_line))]
pub fn write_too_long(out: &mut [u8; LINES]) -> usize
    ensures { WritesTooLong out.old out.new result }
{
    let mut writer = Writer::new(out);
    writer.word(b"too long\n");
    writer.at
}

// The network has no solution.
pub fn write_inconsistent(out: &mut [u8; LINES]) -> usize
    ensures { WritesInconsistent out.old out.new result }
{
    let mut writer = Writer::new(out);
    writer.word(b"inconsistent\n");
    writer.at
}

// The file was refused: the refusal's number, and the offset.
#[tactic(auto, using(crate::proofs::Digits::byte_short, crate::proofs::Digits::offset_short))]
pub fn write_refused(number: u8, at: usize, out: &mut [u8; LINES]) -> usize
    ensures { WritesRefused number at out.old out.new result }
{
    let mut writer = Writer::new(out);
    writer.word(b"refused");
    writer.number(usize::from(number));
    writer.word(b" at");
    writer.number(at);
    writer.byte(b'\n');
    writer.at
}

// A solution was found: every variable's value, and the objective values upwards. It writes nothing for more than 32 or 16 of them.
#[tactic(auto, using(crate::proofs::Found::values_too_many, crate::proofs::Found::sorted_too_many, crate::proofs::Digits::numbers_short))]
pub fn write_found(values: &[u8], sorted: &[u8], out: &mut [u8; LINES]) -> usize
    ensures { WritesFound values.now sorted.now out.old out.new result }
{
    if values.len() > VARIABLES || sorted.len() > OBJECTIVES {
        return 0;
    }
    let mut writer = Writer::new(out);
    writer.word(b"found\nvalues");
    writer.numbers(values);
    writer.word(b"\nsorted");
    writer.numbers(sorted);
    writer.byte(b'\n');
    writer.at
}
