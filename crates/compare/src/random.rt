// Numbers that look random: each is a function of a seed and a place, so that a network can be made again from its number.
ghost use Rattle.std.specs.Prelude.{◌≤◌};

const MODULUS: u64 = 2_147_483_648;

#[derive(Clone, Copy)]
pub(crate) struct Seed(pub u64);

impl Seed {
    // The seed of a part of what the seed makes.
    pub(crate) fn part(self, part: u64) -> Seed {
        let first = stirred(self.0) % MODULUS;
        Seed(stirred(first * 31 + part % MODULUS))
    }

    // A number below the limit; 0 where the limit is 0.
    pub(crate) fn pick(self, place: u64, below: u8) -> u8
        ensures { result ≤ below }
    {
        if below == 0 {
            return 0;
        }
        (self.part(place).0 % u64::from(below)) as u8
    }

    // Whether one of so many chances came true.
    pub(crate) fn chance(self, place: u64, of: u8) -> bool {
        self.pick(place, of) == 0
    }

    // Whether an argument is wrong on purpose: by one of so many chances, and by one of three where the call is careless.
    pub(crate) fn fault(self, place: u64, of: u8) -> bool {
        if self.chance(99, 8) {
            return self.chance(place, 3);
        }
        self.chance(place, of)
    }
}

// A number below the modulus, far from those of the numbers beside.
fn stirred(x: u64) -> u64 {
    let once = (x % MODULUS) * 1_103_515_245 + 12_345;
    let mixed = once ^ (once >> 17);
    let twice = (mixed % MODULUS) * 1_664_525 + 1_013_904_223;
    let spread = twice ^ (twice >> 13);
    let thrice = (spread % MODULUS) * 69_069 + 1;
    (thrice >> 9) % MODULUS
}
