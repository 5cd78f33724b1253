// Bursts on the data bus: what a READ or WRITE set going, what cut it short, and the beat on a clock. One burst is in
// `cuts` and `beats`, the masks of the last clocks in `masking`, and what is before the first record in `quiet`. The code of the bus, with its
// four READs, is in crate `bus`.
#![tactic(auto)]

pub mod beats;
pub mod cuts;
pub mod masking;
pub mod quiet;

use units::Clock;

// A READ's or WRITE's burst. It holds registration and cut, never a sum of them: a sum could pass 2^40. `live` stands beside the rest, and
// no Option around it: a state's words hold all nine numbers of a burst that is none (words/Words `burst_in`, `holds`).
#[derive(Clone, Copy)]
pub struct Burst {
    pub live: bool,
    pub auto: bool,
    pub bank: u8,
    pub row: u16,
    pub column: u16,
    pub start: Clock,
    pub cut: Option<Clock>,
    pub word: u16,
}

// DQMB7 to DQMB0 on the last record's clock, on the clock before it, and on the one before that.
#[derive(Clone, Copy)]
pub struct Masks {
    pub first: u8,
    pub second: u8,
    pub third: u8,
}

// The bursts that can still have beats, the latest READ first, and the masks.
#[derive(Clone, Copy)]
pub struct Bus {
    pub write: Burst,
    pub reads: [Burst; 4],
    pub masks: Masks,
}

// The byte lanes of one column that a beat stores or drives, lane 7 the top bit.
#[derive(Clone, Copy)]
pub struct Cells {
    pub bank: u8,
    pub row: u16,
    pub column: u16,
    pub lanes: u8,
}

// What runs on the data bus on one clock.
#[derive(Clone, Copy)]
pub enum Beat {
    Quiet,
    Stores(Cells),
    Drives(Cells),
}
