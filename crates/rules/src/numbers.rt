// The numbers of refusals (01, Verdicts).
ghost use Rattle.std.specs.Prelude.{◌≡◌};
ghost use Rattle.rules.specs.Numbers.{interval_number, number, interval, number_of, interval_of};

use crate::{Interval, Refusal};

impl Interval {
    // "1 tRCD, 2 tRAS, 3 tRC, 4 tRP, 5 tRRD, 6 tRFC, 7 tWR, 8 tMRD".
    pub fn number(self) -> u8
        ensures { result ≡ interval_number self }
    {
        self as u8 + 1
    }
}

impl Refusal {
    // The number that document 01's table gives.
    pub fn number(self) -> u8
        ensures { result ≡ number self }
    {
        match self {
            Refusal::WrongLength => 1,
            Refusal::WrongVersion => 2,
            Refusal::WrongPeriod => 3,
            Refusal::WrongGrade => 4,
            Refusal::HeaderZeros => 5,
            Refusal::WrongTable => 6,
            Refusal::WrongPage => 7,
            Refusal::RecordZeros => 10,
            Refusal::CkeLow => 11,
            Refusal::LateRefresh => 12,
            Refusal::LongRow => 13,
            Refusal::StartUpStep => 14,
            Refusal::BankState => 15,
            Refusal::TooSoon(_) => 16,
            Refusal::ReservedMode => 17,
            Refusal::ShortClock => 18,
            Refusal::UnfinishedBurst => 19,
            Refusal::BusNotClear => 20,
            Refusal::EndlessBurst => 21,
            Refusal::LateClosing => 22,
            Refusal::HighClock => 23,
            Refusal::UnfitState => 25,
        }
    }

    // "The interval is 0 unless the number is 16."
    pub fn interval(self) -> u8
        ensures { result ≡ interval self }
    {
        match self {
            Refusal::TooSoon(i) => i.number(),
            _ => 0,
        }
    }
}

// The paper's number of a verdict: "a taken record 0".
pub fn number_of(v: Result<(), Refusal>) -> u8
    ensures { result ≡ number_of v }
{
    match v {
        Ok(()) => 0,
        Err(w) => w.number(),
    }
}

// Its interval.
pub fn interval_of(v: Result<(), Refusal>) -> u8
    ensures { result ≡ interval_of v }
{
    match v {
        Ok(()) => 0,
        Err(w) => w.interval(),
    }
}
