// Random small networks: the calls of each, made from the network's seed and the call's. Some arguments are wrong on purpose.
use crate::calls::{Call, Decision, Sort, Way};
use crate::lists::{at, from, only};
use crate::random::Seed;
use crate::random_arguments::{linear_call, objectives_call, table_call};
use crate::second::Lists;

// The calls of a small network.
pub(crate) const CALLS: u8 = 20;

// Where a network stands when a call is made.
#[derive(Clone, Copy)]
pub(crate) struct Scene {
    pub variables: u8,
    pub decisions: u8,
    // the values left to each variable
    pub lists: Lists,
}

enum Kind {
    Variable,
    Allow,
    Forbid,
    Linear,
    Objectives,
    Pin,
    Ban,
    TakeBack,
}

// The kind of a call: first variables, then objectives, rules and decisions; all are taken back, and it goes on with rules.
fn kind_of(seed: Seed, step: u8) -> Kind {
    let r = seed.pick(1, 16);
    match step {
        0..=3 => first_kind(r),
        4 | 8 => naming_kind(r),
        5..=7 | 16 => rule_kind(r),
        _ => decision_kind(r),
    }
}

// One of sixteen is drawn, here and below.
fn first_kind(r: u8) -> Kind {
    match r {
        13 => Kind::Linear,
        14 => Kind::Objectives,
        15 => Kind::Pin,
        _ => Kind::Variable,
    }
}

fn naming_kind(r: u8) -> Kind {
    match r {
        13 => Kind::Variable,
        14 => Kind::Allow,
        15 => Kind::Linear,
        _ => Kind::Objectives,
    }
}

fn rule_kind(r: u8) -> Kind {
    match r {
        0..=3 => Kind::Allow,
        4..=8 => Kind::Forbid,
        9..=13 => Kind::Linear,
        14 => Kind::Objectives,
        _ => Kind::Variable,
    }
}

fn decision_kind(r: u8) -> Kind {
    match r {
        0..=3 => Kind::Pin,
        4..=9 => Kind::Ban,
        10 | 11 => Kind::TakeBack,
        12 => Kind::Variable,
        13 => Kind::Allow,
        14 => Kind::Linear,
        _ => Kind::Objectives,
    }
}

// The call of a step.
pub(crate) fn small_call(network: Seed, seed: Seed, step: u8, scene: &Scene) -> Call {
    if step == 15 {
        return Call::TakeBack(0);
    }
    let n = scene.variables;
    match kind_of(seed, step) {
        Kind::Variable => Call::Variable(marks_of(network, seed)),
        Kind::Allow => table_call(Sort::Allow, network, seed, n),
        Kind::Forbid => table_call(Sort::Forbid, network, seed, n),
        Kind::Linear => linear_call(seed, n),
        Kind::Objectives => objectives_call(seed, n),
        Kind::Pin => decision_call(Way::Pin, network, seed, scene),
        Kind::Ban => decision_call(Way::Ban, network, seed, scene),
        Kind::TakeBack => Call::TakeBack(depth_of(seed, scene.decisions)),
    }
}

// The network's seven values; most variables declare some of the first six.
pub(crate) fn value_of(network: Seed, i: u8) -> u8 {
    let place = i % 7;
    match network.pick(900, 5) {
        0 => 2 * place + 1,
        1 => 63 - 9 * place,
        2 => network.pick(910 + u64::from(place), 64),
        _ => place,
    }
}

// The values that a variable declares: now and then none or all, and most often some of the network's.
fn marks_of(network: Seed, seed: Seed) -> u64 {
    if seed.chance(10, 16) {
        return 0;
    }
    if seed.chance(11, 60) {
        return u64::MAX;
    }
    (0..6)
        .filter(|i| seed.pick(20 + u64::from(*i), 8) < 5)
        .fold(0, |marks, i| marks | only(value_of(network, i)))
}

// A pin or a ban, most often of a value left.
fn decision_call(way: Way, network: Seed, seed: Seed, scene: &Scene) -> Call {
    let wanted = value_of(network, seed.pick(30, 7));
    let mut variable = seed.pick(31, scene.variables);
    if seed.fault(32, 20) {
        variable = seed.pick(33, 40);
    }
    let mut value = left_near(at(scene.lists.as_slice(), variable), wanted);
    if seed.fault(34, 8) {
        value = wanted;
    }
    if seed.fault(35, 20) {
        value = seed.pick(36, 255);
    }
    Call::Decide(Decision {
        way,
        variable,
        value,
    })
}

// The lowest value left from v on, or the lowest of all; v where none is left.
fn left_near(list: u64, v: u8) -> u8 {
    if list == 0 {
        return v;
    }
    let w = from(list, v);
    if w < 64 {
        return w;
    }
    from(list, 0)
}

// The number of decisions that a take-back leaves; now and then it is too large.
fn depth_of(seed: Seed, depth: u8) -> usize {
    if seed.fault(41, 8) {
        return usize::from(depth) + 1 + usize::from(seed.pick(42, 3));
    }
    usize::from(seed.pick(40, depth.saturating_add(1)))
}
