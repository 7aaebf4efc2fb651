// The laws that follow from the definitions of crates/meaning: in specs/, with no code of their own.
#![tactic(auto)]
