// Dropping the values that have no support in a rule, and in all rules.
#![tactic(auto)]

ghost use Rattle.filters.specs.Layout.{IsScope};

mod allowed;
mod forbidden;
mod linear;
mod sweeps;
mod tables;

pub use sweeps::{filter_rule, settled};

// What a rule says of its numbers.
#[derive(Clone, Copy, Debug, PartialEq, Eq)]
pub enum Kind {
    // a table of the tuples that are allowed
    Allow,
    // a table of those that are forbidden
    Forbid,
    // a sum of terms, and its bound
    Linear,
}

// A rule's head. Its numbers stand in the room from its start on: its variables, as many as its arity says, and then tuples or coefficients.
#[derive(Clone, Copy, Debug, PartialEq, Eq)]
pub struct Head {
    pub kind: Kind,
    pub arity: u32,
    pub start: u32,
    // the number of tuples, or the bound, kept 5,000,000 more than it is
    pub last: u32,
}

impl Head {
    // Its variables in the room; those that the room has, where it ends before.
    pub fn scope<'a>(&self, room: &'a [u16]) -> &'a [u16]
        ensures { IsScope self.now room.now result.now }
    {
        let behind = room.get(self.start as usize..).unwrap_or(&[]);
        &behind[..behind.len().min(self.arity as usize)]
    }
}

// The head of no rule, for the places that are not used.
pub const NO_HEAD: Head = Head {
    kind: Kind::Allow,
    arity: 0,
    start: 0,
    last: 0,
};

// Rules as they lie in a state: a head for each, and the room with their numbers.
#[derive(Clone, Copy, Debug)]
pub struct Rules<'a> {
    pub heads: &'a [Head],
    pub room: &'a [u16],
}
