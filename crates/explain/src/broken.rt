// The rule that a refused record breaks, in a sentence.
use crate::walking::Halt;
use layout::Command;
use rules::{Interval, Refusal};

// 14: the step of start-up at which the record stands.
#[derive(Clone, Copy, PartialEq, Eq)]
pub enum Step {
    BeforeAllClosed,
    BeforeRefreshes,
    BeforeLoad,
    // the first PRECHARGE ALL, before its time
    TooEarly,
}

impl Step {
    fn sentence(self) -> &'static str {
        match self {
            Step::BeforeAllClosed => {
                "Before the first PRECHARGE ALL only NOP and COMMAND INHIBIT are allowed."
            }
            Step::BeforeRefreshes => {
                "Before two AUTO REFRESH only PRECHARGE and AUTO REFRESH are allowed."
            }
            Step::BeforeLoad => {
                "Before the first LOAD MODE only PRECHARGE, AUTO REFRESH and LOAD MODE are allowed."
            }
            Step::TooEarly => "The first PRECHARGE ALL must not stand before 100000.000 ns.",
        }
    }
}

// 15: what a command asks of its bank, or of each.
fn asked_of_banks(k: Command) -> &'static str {
    match k {
        Command::Active => "ACTIVE asks that its bank is closed.",
        Command::Read | Command::Write => "READ and WRITE ask that their bank is open.",
        _ => "AUTO REFRESH and LOAD MODE ask that every bank is closed.",
    }
}

// 16: the minimum that is not met.
fn too_soon(minimum: Interval) -> &'static str {
    match minimum {
        Interval::Rcd => "tRCD: READ or WRITE too soon after the ACTIVE of its bank.",
        Interval::Ras => "tRAS: PRECHARGE too soon after the ACTIVE of its bank.",
        Interval::Rc => "tRC: ACTIVE too soon after the last ACTIVE of its bank.",
        Interval::Rp => "tRP: too soon after a closing.",
        Interval::Rrd => "tRRD: ACTIVE too soon after an ACTIVE of another bank.",
        Interval::Rfc => "tRFC: too soon after an AUTO REFRESH.",
        Interval::Wr => "tWR: PRECHARGE too soon after a byte was stored in its bank.",
        Interval::Mrd => "tMRD: too soon after a LOAD MODE.",
    }
}

impl Halt {
    // 10 to 23. With the other numbers no record is refused here: 1 to 7 are `Fault`'s, and the walk from the start leaves no state unfit.
    pub fn sentence(&self) -> &'static str {
        match self.refusal {
            Refusal::RecordZeros => "A bit of the record that must be zero is set.",
            Refusal::CkeLow => "CKE is LOW.",
            Refusal::LateRefresh => "The last refresh is longer ago than the refresh interval.",
            Refusal::LongRow => "A row is open longer than tRAS max.",
            Refusal::StartUpStep => self.step().sentence(),
            Refusal::BankState => asked_of_banks(self.command()),
            Refusal::TooSoon(minimum) => too_soon(minimum),
            Refusal::ReservedMode => "The mode word is reserved.",
            Refusal::ShortClock => "The clock period is below tCK of the chosen latency.",
            Refusal::UnfinishedBurst => "An auto precharge burst is unfinished.",
            Refusal::BusNotClear => {
                "The data bus is not clear for a WRITE: a READ drives it on this clock or on the one before."
            }
            Refusal::EndlessBurst => "Auto precharge is asked of a full-page burst.",
            Refusal::LateClosing => {
                "Auto precharge would start later than tRAS max after the ACTIVE."
            }
            Refusal::HighClock => "The clock is above 2^40.",
            _ => "",
        }
    }
}
