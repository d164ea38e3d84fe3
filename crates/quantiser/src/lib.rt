// Quantised counts, and the colorant of a phase (rules 5.1 to 6.5).
#![tactic(auto)]

mod cells;
mod counting;

pub use cells::{colorant_of, levels, threshold, thresholds};
pub use counting::{counted, counts};
