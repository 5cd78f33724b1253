// The banks as numbers in a lent array, and what the loop over records asks of them and leaves of them there.
#![tactic(auto)]

pub mod inplace;
mod numbers;
