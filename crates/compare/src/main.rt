// Holds the library against a second solver on random small networks: each gets the same calls from both, and whatever
// differs is counted.
#![tactic(auto)]

mod calls;
mod counts;
mod crowded;
mod library;
mod lists;
mod networks;
mod random;
mod random_arguments;
mod second;
mod second_checks;
mod second_combinations;
mod second_filter;
mod second_solve;

use calls::{Call, Number};
use counts::{Counts, count, count_if};
use crowded::{Crowd, crowded_call};
use library::Library;
use lists::SHORT;
use networks::{Scene, small_call};
use random::Seed;
use second::Record;
use second_checks::Refusal;
use second_filter::left;

// How many networks are compared; each fiftieth is at the limits.
const NETWORKS: u64 = 4000;

// What stands on both sides of a network, and what was counted over all.
#[derive(Drop)]
struct Comparison {
    library: Library,
    record: Record,
    counts: Counts,
}

impl Comparison {
    fn new() -> Self {
        Comparison {
            library: Library::new(),
            record: Record::new(),
            counts: Counts::default(),
        }
    }

    // All calls of a network, from a new state on.
    fn run(&mut self, network: u64) {
        self.library = Library::new();
        self.record = Record::new();
        for step in 0..calls_of(network) {
            let call = call_of(network, step, &self.record);
            self.call(&call);
            if is_solved_at(network, step) {
                self.solve(Seed(network).part(300 + u64::from(step)));
            }
        }
        count(&mut self.counts.networks);
        count_if(&mut self.counts.crowded, is_crowded(network));
    }

    // The same call on both sides, and then every list left.
    fn call(&mut self, call: &Call) {
        let answer = self.record.called(call);
        let told = self.library.called(call);
        self.counts.add_call(call, answer, &self.record.declared);
        count_if(&mut self.counts.differences, told != answer);
        self.compare_lists();
    }

    // The lists of all variables, and of the one behind them.
    fn compare_lists(&mut self) {
        let lists = left(&self.record);
        let unknown = Number::from(Refusal::NoSuchVariable);
        for x in 0..=self.record.variables() {
            let list = lists.as_slice().get(usize::from(x)).copied();
            let told = self.library.left_to(x);
            count(&mut self.counts.lists);
            count_if(&mut self.counts.differences, told != list.ok_or(unknown));
        }
    }

    // Solves on both sides with a buffer of a random length, most often long enough.
    fn solve(&mut self, seed: Seed) {
        let n = self.record.variables();
        let mut length = n.saturating_add(seed.pick(1, 5));
        if seed.chance(2, 8) {
            length = seed.pick(3, n);
        }
        let length = usize::from(length).min(SHORT);
        let mut buffer = marked_buffer();
        let mut other = marked_buffer();
        let answer = second_solve::solved(&self.record, &mut buffer[..length]);
        let told = self.library.solved(&mut other[..length]);
        self.counts.add_solved(answer);
        let differ = told != answer || other != buffer;
        count_if(&mut self.counts.differences, differ);
    }
}

// A buffer whose places differ from any value.
fn marked_buffer() -> [u8; SHORT] {
    let mut buffer = [0; SHORT];
    for (place, mark) in buffer.iter_mut().zip(200..240) {
        *place = mark;
    }
    buffer
}

// Whether the network is one at the limits.
fn is_crowded(network: u64) -> bool {
    network % 50 == 49
}

fn calls_of(network: u64) -> u8 {
    if is_crowded(network) {
        return crowded::CALLS;
    }
    networks::CALLS
}

// The call of a step of a network.
fn call_of(network: u64, step: u8, record: &Record) -> Call {
    let scene = Scene {
        variables: record.variables(),
        decisions: record.decisions(),
        lists: left(record),
    };
    let seed = Seed(network);
    if is_crowded(network) {
        let crowd = match network / 50 % 4 {
            0 => Crowd::Variables,
            1 => Crowd::Rules,
            2 => Crowd::Room,
            _ => Crowd::Bans,
        };
        return crowded_call(seed, crowd, step, &scene);
    }
    small_call(seed, seed.part(u64::from(step)), step, &scene)
}

// Whether both sides solve after the step.
fn is_solved_at(network: u64, step: u8) -> bool {
    step % 3 == 1 && 3 < step || step.wrapping_add(1) == calls_of(network)
}

fn main(rt: HostRuntime) {
    let mut comparison = Comparison::new();
    for network in 0..NETWORKS {
        comparison.run(network);
    }
    let counts = comparison.counts;
    let _ = print!(rt; "{counts}");
}
