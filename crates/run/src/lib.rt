// The run over a whole input (RULES, section 6): the records of calls, their steps, and the bench (section 7).
#![tactic(auto)]

mod bench;
mod records;

pub use bench::{bench_run, calls_start, run_named, split_input};
pub use records::{call_of_kind, decode, step};
