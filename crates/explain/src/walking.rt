// The records of a trace one by one, and what a refused record found.
use crate::broken::Step;
use device::Device;
use layout::{Command, Header, Record};
use rules::{Ran, Refusal, Setup, State, Status};
use speed::SpeedTable;
use units::time::lasts;
use units::{Clock, Module, PAGE_BYTES, Ps};

// What a refused record found: its place in the trace, why it is refused, the table, the state before it, and the record.
#[derive(Clone, Copy)]
pub struct Halt {
    pub place: u64,
    pub refusal: Refusal,
    pub table: SpeedTable,
    pub state: State,
    pub record: Record,
}

// The state after these records.
fn state_after(start: Device, setup: Setup, records: &[u8]) -> State {
    let mut page = [0u8; PAGE_BYTES];
    start.records(setup, records, &mut page, &mut []).next.0
}

impl Halt {
    // The record that the judge reports of a trace with this header; none where the trace has no such record.
    pub fn of(ran: Ran, h: Header, setup: Setup, trace: &[u8]) -> Option<Halt> {
        let refusal = ran.verdict.err()?;
        let (chunks, _) = trace.as_chunks::<16>();
        let (_, records) = chunks.split_first()?;
        let (before, rest) = records.split_at_checked(ran.reported as usize)?;
        let record = layout::read_record(Module::of_grade(h.grade), rest.first()?)?;
        let start = Device::start(Ps(u64::from(h.period)), h.grade, h.bank, h.row);
        Some(Halt {
            place: ran.reported,
            refusal,
            table: setup.table,
            state: state_after(start, setup, before.as_flattened()),
            record,
        })
    }

    pub fn period(&self) -> Ps {
        self.state.core.period
    }

    pub fn command(&self) -> Command {
        Command::from(self.record.code)
    }

    // "The first record stands on the clock equal to its skipped count; each later one on the previous clock plus its skipped count plus 1."
    pub fn clock(&self) -> Clock {
        let skipped = u64::from(self.record.skipped);
        match self.state.core.last {
            None => Clock(skipped),
            Some(n) => Clock(n.0.saturating_add(skipped + 1)),
        }
    }

    // The time of the record.
    pub fn now(&self) -> Ps {
        lasts(self.clock(), self.period())
    }

    // What the record's own bank is.
    pub fn status(&self) -> Status {
        self.state.banks[usize::from(self.record.ba % 4)].status
    }

    // 14: the step of start-up at which the record stands.
    pub fn step(&self) -> Step {
        let startup = self.state.core.startup;
        if startup.begun() {
            if startup.refreshes.two_done() {
                Step::BeforeLoad
            } else {
                Step::BeforeRefreshes
            }
        } else if self.command() == Command::Precharge && layout::a10(self.record.addr) {
            Step::TooEarly
        } else {
            Step::BeforeAllClosed
        }
    }
}
