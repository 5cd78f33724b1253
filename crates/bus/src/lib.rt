// The data bus: the four READs and the WRITE that can still have beats in `reads` and `databus`, what a command leaves of them, the
// beat on a clock, and numbers 19 and 20.
#![tactic(auto)]

pub mod databus;
pub mod reads;
