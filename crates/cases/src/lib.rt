// The eight vectors of document 000, example 1, three numbers each; and, as its contract, document 01's cases P1 to P12.
#![tactic(auto)]

ghost use Rattle.cases.specs.Table.{Cases};

pub const EIGHT: [u8; 24] = [
    1, 1, 0, 5, 5, 3, 7, 3, 5, 1, 2, 1, 9, 5, 2, 3, 4, 3, 5, 3, 6, 10, 3, 4,
];

pub fn eight() -> [u8; 24]
    ensures { Cases result }
{
    EIGHT
}
