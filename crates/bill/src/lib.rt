// The ink bill: what a job costs, by the tallies of its windows (rules 15.1 to 15.6).
#![tactic(auto)]

mod charging;

pub use charging::charge;
