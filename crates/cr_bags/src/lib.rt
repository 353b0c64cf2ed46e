//! Lists in ascending order, lists that may be faults, and lists with the same members each as often: definitions and
//! their laws, for the crates above. There is no code.
#![tactic(auto)]
