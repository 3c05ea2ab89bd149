// The third term is a claim about whole histories of calls (RULES, section 4): this crate states and proves it, and has no code.
#![tactic(auto)]
