// The machine and its calls (RULES, sections 1 to 3): a call by value gives its number, the machine after it and what it reports; the mask
// command is also there on the register record that the kernel lends.
#![tactic(auto)]

pub mod calls;
pub mod lent;
pub mod record;

pub use lent::set_mask_lent;
pub use record::{
    Answered, Call, Domain, Machine, Page, Program, Report, Violation, Violations, Width,
};
pub use rules::registers::{Mode, Registers};
pub use rules::{Refusal, outcome_number};
