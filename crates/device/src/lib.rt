// The device: a record asked, taken, or both, and records in turn, judged from a state that goes in by value.
#![tactic(auto)]

use bursts::Beat;
use rules::{Answer, Ran, Refusal, State};

mod engine;
mod many;
pub mod reporting;
mod single;

// A device by its state. The calls are methods of this type; the rules speak of the state in it.
#[derive(Clone, Copy)]
pub struct Device(pub State);

// What taking a record gives: the beat on its clock, and the next state.
#[derive(Clone, Copy)]
pub struct Took {
    pub beat: Beat,
    pub next: Device,
}

// The answer to a record that was asked and taken, beside the next state.
#[derive(Clone, Copy)]
pub struct Outcome {
    pub answer: Answer,
    pub next: Device,
}

// What judging records in turn gives, beside the next state.
#[derive(Clone, Copy)]
pub struct Judged {
    pub ran: Ran,
    pub next: Device,
}

// What the engine leaves of records: the verdict and the record that it reports, the beat of the last record taken, and the
// state after it.
#[derive(Clone, Copy)]
pub struct Went {
    pub verdict: Result<(), Refusal>,
    pub reported: u64,
    pub beat: Beat,
    pub next: State,
}

// The two words of a record's 16 bytes.
#[derive(Clone, Copy)]
pub struct Words {
    pub first: u64,
    pub second: u64,
}
