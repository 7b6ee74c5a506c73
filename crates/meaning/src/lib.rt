// The limits of document 01, for code. All else in this crate is definitions (specs/) and their laws (proofs/).
#![tactic(auto)]

pub const VARIABLES: usize = 32;

pub const RULES: usize = 48;

pub const ROOM: usize = 4096;

pub const OBJECTIVES: usize = 16;

pub const DECISIONS: usize = 32;
