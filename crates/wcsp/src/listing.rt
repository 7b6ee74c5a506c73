// The tuples of a table.
ghost use Rattle.std.specs.Prelude.{◌≡◌, [], ◌+◌, ◌*◌, ◌≤◌, ◌<◌, length, take, drop, IfOk};
ghost use Rattle.meaning.specs.Limits.{room_limit};
ghost use Rattle.meaning.specs.Calls.{some, same, rows};
ghost use Rattle.reading.specs.Reading.{several, times};
ghost use Rattle.reading.specs.Steps.{Comes};
ghost use Rattle.wcsp.specs.Files.{value_tests, tuple};
ghost use Rattle.wcsp.specs.Steps.{Known, Filled, Keyed, NextTuple};

use costs::says_same;
use meaning::ROOM;
use reading::{Fault, Read, Step, any_number, number_below};
use refusals::Refusal;
use text::skip_blanks;
use tuples::{KEYS, is_listed, key_of};

// What is known of a table before its tuples: the sizes of all variables, its own variables, at least one, and the default cost.
#[derive(Clone, Copy)]
pub(crate) struct Heading<'a> {
    pub(crate) sizes: &'a [u8],
    pub(crate) scope: &'a [u8],
    pub(crate) default: usize,
    ghost known: { Known (length sizes.now) scope.now },
    ghost not_empty: { 0 < length scope.now },
}

// One tuple, into its cells: each value below its variable's size.
fn read_tuple(text: &[u8], at: usize, heading: Heading, tuple: &mut [u8]) -> Step<()>
    requires { length tuple.old ≡ length heading.scope.now }
    ensures { Comes (several text.now (value_tests heading.entry.sizes.now heading.entry.scope.now) (length heading.entry.scope.now) at) (λ values v. values ≡ tuple.new) result }
{
    let mut place = at;
    for (j, x) in heading.scope.iter().enumerate() {
        let size = heading.sizes[*x as usize] as usize;
        let value = number_below(text, place, size, Refusal::OutOfRange)?;
        tuple[j] = value.what as u8;
        place = value.after;
    }
    Ok(Read {
        what: (),
        after: place,
    })
}

// Whether the tuple behind the first `count` is one of them, with marks at their keys; its own key is marked too.
fn listed_by_key(cells: &[u8], count: usize, arity: usize, marked: &mut [bool; KEYS]) -> bool
    requires arity_bound { (count * arity + arity ≤ length cells.now) × (0 < arity) }
    requires keyed { Keyed marked.old (rows count arity cells.now) }
    ensures value { result ≡ some (same (take arity (drop (count * arity) cells.now))) (rows count arity cells.now) }
    ensures keyed_2 { Keyed marked.new (rows (count + 1) arity cells.now) }
{
    let last = count * arity;
    let tuple = &cells[last..last + arity];
    let key = key_of(tuple);
    if marked[key] {
        return is_listed(tuple, &cells[..last]);
    }
    marked[key] = true;
    false
}

// A tuple with its cost, behind the first `count` in the cells.
fn next_tuple(
    text: &[u8],
    at: usize,
    heading: Heading,
    cells: &mut [u8; ROOM],
    count: usize,
    marked: &mut [bool; KEYS],
) -> Step<()>
    requires room { count * length heading.scope.now + length heading.scope.now ≤ room_limit }
    requires keyed { Keyed marked.old (rows count (length heading.scope.now) cells.old) }
    ensures next_tuple { NextTuple text.now heading.entry.sizes.now heading.entry.scope.now heading.entry.default at count cells.old cells.new result }
    ensures keyed_on { IfOk result (λ _. Keyed marked.new (rows (count + 1) (length heading.entry.scope.now) cells.new)) }
{
    let arity = heading.scope.len();
    let last = count * arity;
    let tuple = read_tuple(text, at, heading, &mut cells[last..last + arity])?;
    let cost = any_number(text, tuple.after)?;
    if says_same(heading.default, cost.what) || listed_by_key(cells, count, arity, marked) {
        return Err(Fault {
            refusal: Refusal::TupleTwice,
            at: skip_blanks(text, at),
        });
    }
    Ok(Read {
        what: (),
        after: cost.after,
    })
}

// The tuples of a table with this heading, one after the other into the cells.
pub(crate) fn read_tuples(
    text: &[u8],
    at: usize,
    heading: Heading,
    count: usize,
    cells: &mut [u8; ROOM],
) -> Step<()>
    requires { count * length heading.scope.now ≤ room_limit }
    ensures { Comes (times (tuple text.now heading.entry.sizes.now heading.entry.scope.now heading.entry.default) count [] at) (λ ts v. Filled (length heading.entry.scope.now) count ts cells.new) result }
{
    let mut marked = [false; KEYS];
    let mut place = at;
    for i in 0..count {
        let tuple = next_tuple(text, place, heading, cells, i, &mut marked)?;
        place = tuple.after;
    }
    Ok(Read {
        what: (),
        after: place,
    })
}
