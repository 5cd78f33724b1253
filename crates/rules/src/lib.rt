// Document 01's rules: the state that they speak of, and the answers that they give. The rules themselves are in specs/.
#![tactic(auto)]

ghost use Rattle.std.specs.Prelude.{◌≡◌};
ghost use Rattle.rules.specs.OneRecord.{period_fits, grade_known};

pub mod banks;
pub mod clocks;
pub mod closing;
pub mod numbers;
pub mod steps;
pub mod timing;

use bursts::{Beat, Bus};
use speed::SpeedTable;
use units::{Clock, Ps};

// "The record's clock above 2^40" is number 23; in a state, "a clock above 2^40" is 25.
pub const CLOCK_MAX: u64 = 1_099_511_627_776;

// "A record number above 2^41" is number 25.
pub const NUMBER_MAX: u64 = 2_199_023_255_552;

// The refreshes done: none, one, or two and more, with the clock of the last.
#[derive(Clone, Copy)]
pub enum Refreshes {
    Zero,
    One(Clock),
    Two(Clock),
}

// The mode register: its word and the clock of the last LOAD MODE.
#[derive(Clone, Copy)]
pub struct Register {
    pub word: u16,
    pub clock: Clock,
}

// The steps of start-up: the last PRECHARGE ALL, the refreshes, the mode register once it is loaded.
#[derive(Clone, Copy)]
pub struct StartUp {
    pub allclosed: Option<Clock>,
    pub refreshes: Refreshes,
    pub register: Option<Register>,
}

// What a bank is: not started, open with row and ACTIVE clock, or closed with its closing time.
#[derive(Clone, Copy)]
pub enum Status {
    NotStarted,
    Open { row: u16, active: Clock },
    Closed { closing: Ps },
}

// A bank, with its last ACTIVE (also after closing) and the last clock on which a byte was stored in it after that.
#[derive(Clone, Copy)]
pub struct Bank {
    pub status: Status,
    pub active: Option<Clock>,
    pub stored: Option<Clock>,
}

// The state but for its banks: what no number of the table reaches. The grade says which module it is, and is a number: a state may
// hold any, and 4 refuses all but two. `number` is that of the next record.
#[derive(Clone, Copy)]
pub struct Core {
    pub period: Ps,
    pub grade: u8,
    pub bank: u8,
    pub row: u16,
    pub number: u64,
    pub last: Option<Clock>,
    pub startup: StartUp,
    pub bus: Bus,
}

// The state of the device, as the records taken so far left it.
#[derive(Clone, Copy)]
pub struct State {
    pub core: Core,
    pub banks: [Bank; 4],
}

// What comes with a call beside trace and page.
#[derive(Clone, Copy)]
pub struct Setup {
    pub table: SpeedTable,
}

// A minimum that number 16 names, in the order in which "the lowest such is named".
#[derive(Clone, Copy, PartialEq, Eq)]
pub enum Interval {
    Rcd,
    Ras,
    Rc,
    Rp,
    Rrd,
    Rfc,
    Wr,
    Mrd,
}

// What is wrong, in the order of the numbers.
#[derive(Clone, Copy, PartialEq, Eq)]
pub enum Refusal {
    // "under 16 bytes, or length not 16 + 16 x count"; a record that is not 16 bytes long
    WrongLength,
    WrongVersion,
    WrongPeriod,
    WrongGrade,
    // "a zero bit of the header set"
    HeaderZeros,
    WrongTable,
    WrongPage,
    // "a zero bit of the record set"
    RecordZeros,
    CkeLow,
    // "the last is longer ago than the refresh interval"
    LateRefresh,
    // "some bank's row open longer than tRAS max"
    LongRow,
    // "command not allowed at this start-up step"
    StartUpStep,
    // "bank open where it must be closed, or the reverse"
    BankState,
    // "a minimum not met"
    TooSoon(Interval),
    ReservedMode,
    // "period below tCK of the chosen latency"
    ShortClock,
    // "an auto precharge burst is unfinished"
    UnfinishedBurst,
    // "data bus not clear for a WRITE"
    BusNotClear,
    // "auto precharge on a full-page burst"
    EndlessBurst,
    // "auto precharge would start later than tRAS max after the ACTIVE"
    LateClosing,
    // "the record's clock above 2^40"
    HighClock,
    // the state holds what no state may
    UnfitState,
}

// What judging many records gives: the verdict, and the record that it reports.
#[derive(Clone, Copy)]
pub struct Ran {
    pub verdict: Result<(), Refusal>,
    pub reported: u64,
}

// The answer to one record: the verdict, the record, and the beat on its clock.
#[derive(Clone, Copy)]
pub struct Answer {
    pub verdict: Result<(), Refusal>,
    pub reported: u64,
    pub beat: Beat,
}

// "Period outside 1,000 to 65,535" is number 3.
pub fn period_fits(p: Ps) -> bool
    ensures { result ≡ period_fits p }
{
    (1_000 <= p.0) & (p.0 <= 65_535)
}

// "Grade not 1 or 2" is number 4.
pub fn grade_known(grade: u8) -> bool
    ensures { result ≡ grade_known grade }
{
    (grade == 1) | (grade == 2)
}
