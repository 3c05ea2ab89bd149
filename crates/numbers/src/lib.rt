// Which numbers the core answers (RULES, section 9) is a claim about all crates that answer one: this crate states and proves it, and has no code.
#![tactic(auto)]
