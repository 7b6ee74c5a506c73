// Random arguments of rules and objectives.
ghost use Rattle.std.specs.Prelude.{◌≤◌};

use crate::calls::{Call, Coefficients, Linear, Scope, Sort, Table};
use crate::lists::{LONG, List, at};
use crate::networks::value_of;
use crate::random::Seed;

// At most so many of the n variables, and at least one.
fn arity_of(seed: Seed, n: u8, most: u8) -> u8 {
    seed.pick(60, n.min(most)).saturating_add(1)
}

// The arity, or now and then none, or one too many.
fn faulty_arity(seed: Seed, arity: u8, too_many: u8) -> u8 {
    if seed.fault(62, 40) {
        return too_many;
    }
    if seed.fault(61, 40) {
        return 0;
    }
    arity
}

// The variable beside x among n, upwards or downwards and round.
fn beside(x: u8, n: u8, up: bool) -> u8 {
    if up {
        let next = x.wrapping_add(1);
        return if next < n { next } else { 0 };
    }
    x.checked_sub(1).unwrap_or(n.saturating_sub(1))
}

// So many variables side by side; now and then one of them is another, known or not, or stands twice.
fn scope_of(seed: Seed, n: u8, arity: u8) -> Scope {
    let mut scope = List::new(0);
    let up = seed.chance(50, 2);
    let mut x = seed.pick(51, n);
    for _ in 0..arity {
        scope.push(x);
        x = beside(x, n, up);
    }
    if seed.fault(52, 16) {
        scope.put(seed.pick(53, arity), seed.pick(54, 6));
    }
    if seed.fault(55, 40) {
        let twice = seed.pick(57, 10);
        scope.put(0, twice);
        scope.put(seed.pick(56, arity), twice);
    }
    scope
}

pub(crate) fn table_call(sort: Sort, network: Seed, seed: Seed, n: u8) -> Call {
    let arity = faulty_arity(seed, arity_of(seed, n, 3), 9);
    let scope = scope_of(seed, n, arity);
    let mut cells = List::new(0);
    fill(&mut cells, network, seed, arity, density(seed, sort));
    if seed.fault(63, 16) {
        repeat_first(&mut cells, arity);
    }
    if seed.fault(64, 40) {
        cells.push(0);
    }
    if seed.fault(65, 30) {
        cells.put(0, 64 + seed.pick(66, 100));
    }
    Call::Table(Table { sort, scope, cells })
}

// How many tuples in sixteen a table lists: now and then none.
fn density(seed: Seed, sort: Sort) -> u8 {
    if seed.chance(70, 12) {
        return 0;
    }
    match sort {
        Sort::Allow => 6 + seed.pick(71, 10),
        Sort::Forbid => 1 + seed.pick(71, 9),
    }
}

fn tuples_at_most(arity: u8) -> u64
    ensures { result ≤ 343 }
{
    match arity {
        1 => 7,
        2 => 49,
        _ => 343,
    }
}

// Adds tuples of the network's values, each or not by chance.
fn fill(cells: &mut List<u8, LONG>, network: Seed, seed: Seed, arity: u8, many: u8) {
    for k in 0..tuples_at_most(arity) {
        if seed.pick(1000 + k, 16) < many {
            push_tuple(cells, network, k, arity);
        }
    }
}

// The tuple whose places are the digits of k to the base 7.
fn push_tuple(cells: &mut List<u8, LONG>, network: Seed, k: u64, arity: u8) {
    let mut rest = k;
    for _ in 0..arity {
        cells.push(value_of(network, (rest % 7) as u8));
        rest /= 7;
    }
}

// Adds the first tuple again behind the last, if there is one.
fn repeat_first(cells: &mut List<u8, LONG>, arity: u8) {
    if cells.is_empty() {
        return;
    }
    for i in 0..arity {
        cells.push(at(cells.as_slice(), i));
    }
}

pub(crate) fn linear_call(seed: Seed, n: u8) -> Call {
    let arity = faulty_arity(seed, arity_of(seed, n, 6), 33);
    let scope = scope_of(seed, n, arity);
    let mut coefficients = coefficients_of(seed, arity);
    if seed.fault(63, 40) {
        // where there is no term, the one too many may be the large one
        let heavy = arity == 0 && seed.fault(83, 30);
        coefficients.push(if heavy { 1001 } else { 0 });
    }
    let bound = signed(seed.chance(80, 8), bound_of(seed));
    Call::Linear(Linear {
        scope,
        coefficients,
        bound,
    })
}

fn signed(minus: bool, size: i32) -> i32 {
    if minus { size.wrapping_neg() } else { size }
}

// Coefficients, small or large; zero is among the small ones, and 1,001 or -1,001 is now and then one of them.
fn coefficients_of(seed: Seed, terms: u8) -> Coefficients {
    let mut coefficients = List::new(0);
    let large = seed.chance(81, 6);
    let heavy = seed.fault(83, 30).then_some(seed.pick(84, terms));
    for i in 0..terms {
        let size = if heavy == Some(i) {
            1001
        } else {
            size_of(seed.part(82), u64::from(i), large)
        };
        let minus = seed.part(85).chance(u64::from(i), 3);
        coefficients.push(signed(minus, size));
    }
    coefficients
}

fn size_of(seed: Seed, place: u64, large: bool) -> i32 {
    if large {
        return 1000 - i32::from(seed.pick(place, 3));
    }
    i32::from(seed.pick(place, 4))
}

fn bound_of(seed: Seed) -> i32 {
    match seed.pick(86, 24) {
        0 => 5_000_001,
        1 => 5_000_000,
        way if way < 4 || seed.chance(81, 6) => 1000 * i32::from(seed.pick(87, 120)),
        way if way < 14 => i32::from(seed.pick(88, 20)),
        _ => i32::from(seed.pick(88, 200)),
    }
}

pub(crate) fn objectives_call(seed: Seed, n: u8) -> Call {
    let mut count = 1 + seed.pick(90, 4);
    if seed.fault(91, 12) {
        count = seed.pick(92, 20);
    }
    Call::Objectives(named_of(seed, n, count))
}

fn named_of(seed: Seed, n: u8, count: u8) -> Scope {
    let mut named = List::new(0);
    for i in 0..count {
        named.push(seed.part(93).pick(u64::from(i), n));
    }
    if seed.fault(94, 16) {
        named.put(0, seed.pick(95, 40));
    }
    named
}
