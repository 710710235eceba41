// An inner crate of the test programs: the notation of a case, and what a case prints. Only safety is proved:
// what does not stand in a line, or does not fit, counts as its usual value. The notation is explained at the
// head of crates/figures/stdin.
#![tactic(auto)]

pub mod fields;
pub mod show;
