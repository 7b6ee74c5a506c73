// Networks at the limits: 32 variables, 48 rules, 4,096 numbers, 32 decisions, and one more of each.
use crate::calls::{Call, Decision, Linear, Scope, Sort, Table, Way};
use crate::lists::{LONG, List, at, from, only};
use crate::networks::Scene;
use crate::random::Seed;
use crate::random_arguments::objectives_call;

// The calls of a crowded network.
pub(crate) const CALLS: u8 = 76;

// What a network crowds.
pub(crate) enum Crowd {
    Variables,
    Rules,
    Room,
    Bans,
}

// The call of a step.
pub(crate) fn crowded_call(network: Seed, crowd: Crowd, step: u8, scene: &Scene) -> Call {
    match crowd {
        Crowd::Variables => many_variables(network, step, scene),
        Crowd::Rules => many_rules(network, step, scene),
        Crowd::Room => full_room(network, step, scene),
        Crowd::Bans => many_bans(step, scene),
    }
}

// A decision on the lowest value left.
fn lowest_call(way: Way, variable: u8, scene: &Scene) -> Call {
    let value = from(at(scene.lists.as_slice(), variable), 0);
    Call::Decide(Decision {
        way,
        variable,
        value,
    })
}

fn pin_call(variable: u8, scene: &Scene) -> Call {
    lowest_call(Way::Pin, variable, scene)
}

fn ban_call(variable: u8, scene: &Scene) -> Call {
    lowest_call(Way::Ban, variable, scene)
}

// A ban of a value that is not left to the first variable.
fn removed_call(scene: &Scene) -> Call {
    let lowest = from(at(scene.lists.as_slice(), 0), 0);
    banned_first(63 - lowest % 64)
}

fn banned_first(value: u8) -> Call {
    Call::Decide(Decision {
        way: Way::Ban,
        variable: 0,
        value,
    })
}

// The first variables, each with the same coefficient.
fn even_call(terms: u8, coefficient: i32, bound: i32) -> Call {
    let mut coefficients = List::new(0);
    for _ in 0..terms {
        coefficients.push(coefficient);
    }
    Call::Linear(Linear {
        scope: first_variables(terms),
        coefficients,
        bound,
    })
}

fn first_variables(count: u8) -> Scope {
    let mut scope = List::new(0);
    for x in 0..count {
        scope.push(x);
    }
    scope
}

fn first_objectives(count: u8) -> Call {
    Call::Objectives(first_variables(count))
}

// 33 variables of one value, a rule on 32 of them, 33 pins, one pin more after a take-back, and the rule once more.
fn many_variables(network: Seed, step: u8, scene: &Scene) -> Call {
    match step {
        0..=32 => Call::Variable(only(network.pick(u64::from(step), 64))),
        33 => even_call(32, 1000, 800_000 + 2000 * i32::from(network.pick(40, 255))),
        34 => first_objectives(16),
        35..=67 => pin_call(step % 32, scene),
        68 => Call::TakeBack(31),
        69 | 70 => pin_call(0, scene),
        71 => Call::TakeBack(usize::from(scene.decisions)),
        72 => banned_first(64),
        73 => removed_call(scene),
        74 => Call::TakeBack(0),
        _ => even_call(32, 2, 2048),
    }
}

// Three variables, 49 rules that leave much, and objectives.
fn many_rules(network: Seed, step: u8, scene: &Scene) -> Call {
    match step {
        0..=2 => Call::Variable(0x8000_0000_0000_023f),
        3..=51 => even_call(
            1 + step % 3,
            1 + i32::from(network.pick(u64::from(step), 3)),
            200,
        ),
        52 => even_call(1, 1001, 200),
        53 => first_objectives(16),
        54..=59 => objectives_call(network.part(500 + u64::from(step)), scene.variables),
        _ => ban_call(step % 3, scene),
    }
}

// Eight variables of two values, a table that takes nearly all room, and rules of three numbers until none is left.
fn full_room(network: Seed, step: u8, scene: &Scene) -> Call {
    match step {
        0..=7 => Call::Variable(3),
        8 => large_table(network, 512),
        9 => large_table(network, 513),
        10 => large_table(network, 509 + u16::from(network.pick(41, 3))),
        11..=19 => even_call(1, 1, 3),
        20 => first_objectives(8),
        21..=59 => pin_call(step % 8, scene),
        _ => Call::TakeBack(usize::from(step % 8)),
    }
}

// A table of so many tuples on eight variables.
fn large_table(network: Seed, tuples: u16) -> Call {
    let mut cells = List::new(0);
    let first = u16::from(network.pick(43, 255));
    for i in 0..tuples {
        push_code(&mut cells, first.wrapping_add(i) % 512);
    }
    let sort = if network.chance(42, 2) {
        Sort::Forbid
    } else {
        Sort::Allow
    };
    Call::Table(Table {
        sort,
        scope: first_variables(8),
        cells,
    })
}

// A tuple of zeros and ones; its last value is 2 or 3 for the codes from 256 on.
fn push_code(cells: &mut List<u8, LONG>, code: u16) {
    for place in 0..7u16 {
        cells.push(u8::from(code >> place & 1 == 1));
    }
    cells.push((code % 512 / 128) as u8);
}

// Two variables, a rule on both, 33 bans, one ban more after a take-back, and so on.
fn many_bans(step: u8, scene: &Scene) -> Call {
    match step {
        0 => Call::Variable(u64::MAX),
        1 => Call::Variable(0x0000_0fff_0000_00ff),
        2 => even_call(2, 1, 80),
        3 => objectives_call(Seed(7), 2),
        4..=36 => ban_call(step % 2, scene),
        37 => Call::TakeBack(31),
        38..=40 => ban_call(0, scene),
        41 => Call::Variable(1),
        42..=44 => Call::TakeBack(usize::from(scene.decisions / 2)),
        _ => ban_call(1, scene),
    }
}
