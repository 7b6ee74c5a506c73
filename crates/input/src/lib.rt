// Reading an input into a lent buffer.
#![tactic(auto)]

ghost use Rattle.std.specs.Prelude.{take};
ghost use Rattle.std.specs.Counts.{IsPrefixLen};
ghost use Rattle.std.specs.Io.KnownBytes.{Consumes};

use std::io::Read;

// Reads until the buffer is full, the input ends or a read fails, and answers how many bytes it put at the buffer's start.
pub fn read_full<R: Read>(from: &mut R, buffer: &mut [u8]) -> usize
    ensures in_bounds { IsPrefixLen result buffer.new }
    ensures bytes { Consumes (R.remaining from.old) (R.remaining from.new) (take result buffer.new) }
{
    let mut done = 0;
    while done < buffer.len() {
        match from.read(&mut buffer[done..]) {
            Ok(0) | Err(_) => break,
            Ok(n) => done += n,
        }
    }
    done
}

#[cfg(test)]
mod tests {
    use super::*;
    use std::test::Fail;

    // Reads on after a read that gives less than there is room for.
    #[test]
    fn reads_to_the_end_or_until_full(rt: HostRuntime) -> Result<(), Fail> {
        let mut six = [0; 6];
        let length = read_full(&mut b"ab".as_slice().chain(b"cd".as_slice()), &mut six);
        assert_eq!(rt; length, 4);
        assert_eq!(rt; six.as_slice(), b"abcd\0\0".as_slice());
        let mut from = b"ab".as_slice().chain(b"cd".as_slice());
        let mut three = [0; 3];
        assert_eq!(rt; read_full(&mut from, &mut three), 3);
        assert_eq!(rt; three.as_slice(), b"abc".as_slice());
        Ok(())
    }
}
