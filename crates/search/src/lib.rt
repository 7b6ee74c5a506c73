// The search: the first rota of what stands whose objectives reach some thresholds.
#![tactic(auto)]

mod choices;
mod nodes;
mod spreading;
mod task;
mod thresholds;

pub use choices::{Rota, first_reaching};
