// What does a record leave? The parts of the next state, for a record that asking has passed.
#![tactic(auto)]

pub mod leaving;
