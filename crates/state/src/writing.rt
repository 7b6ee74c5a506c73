// Writing a rule's numbers into places of the room.
ghost use Rattle.std.specs.Prelude.{◌≡◌, map, length};
ghost use Rattle.meaning.specs.Limits.{coefficient_limit, bound_limit};
ghost use Rattle.meaning.specs.Proper.{Around};
ghost use Rattle.filters.specs.Layout.{shift};
ghost use Rattle.state.specs.Writing.{InRange};

use arguments::{BOUND, COEFFICIENT};

// Writes variables or values.
pub(crate) fn put_bytes(places: &mut [u16], bytes: &[u8])
    requires { length places.old ≡ length bytes.now }
    ensures { places.new ≡ bytes.now }
{
    for (j, byte) in bytes.iter().enumerate() {
        places[j] = u16::from(*byte);
    }
}

// Writes coefficients.
pub(crate) fn put_shifted(places: &mut [u16], coefficients: &[i32])
    requires { (length places.old ≡ length coefficients.now) × InRange coefficients.now }
    ensures { places.new ≡ map (shift coefficient_limit) coefficients.now }
{
    for (j, coefficient) in coefficients.iter().enumerate() {
        places[j] = shifted_coefficient(*coefficient);
    }
}

// A coefficient as the room keeps it.
fn shifted_coefficient(coefficient: i32) -> u16
    requires { Around coefficient_limit coefficient }
    ensures { result ≡ shift coefficient_limit coefficient }
{
    (coefficient + COEFFICIENT) as u16
}

// A bound as a head keeps it.
pub(crate) fn shifted_bound(bound: i32) -> u32
    requires { Around bound_limit bound }
    ensures { result ≡ shift bound_limit bound }
{
    (bound + BOUND) as u32
}
