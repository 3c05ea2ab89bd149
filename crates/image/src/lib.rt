// Images (RULES, section 5): the loader, from bytes to a number and a machine, and the writer, from a machine to bytes.
#![tactic(auto)]

mod body;
pub mod bytes;
pub mod loader;
pub mod refusals;
pub mod writer;

pub use loader::load;
pub use writer::write;
