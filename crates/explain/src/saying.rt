// What is said of a trace, line by line.
use crate::figures::Moment;
use crate::walking::Halt;
use layout::{Command, Header, Record};
use rules::{Refusal, Status};
use std::fmt;

// What is wrong with the header, or with the file.
#[derive(Clone, Copy)]
enum Wrong {
    Length { bytes: usize, count: u16 },
    Version(u8),
    Period(u32),
    Grade(u8),
    ZeroBits,
}

impl fmt::Display for Wrong {
    fn fmt<W: fmt::Write>(&self, f: &mut fmt::Formatter<W>) -> fmt::Result {
        match *self {
            Wrong::Length { bytes, count } => {
                let asked = 16 + 16 * u32::from(count);
                write!(
                    f,
                    "The file has {bytes} bytes; its header and its count ask for {asked}."
                )
            }
            Wrong::Version(version) => write!(f, "The version is {version}; it must be 1."),
            Wrong::Period(period) => {
                write!(
                    f,
                    "The clock period is {period} ps; it must be 1000 to 65535 ps."
                )
            }
            Wrong::Grade(grade) => write!(
                f,
                "The speed grade is {grade}; it must be 1 (-13E) or 2 (-133)."
            ),
            Wrong::ZeroBits => write!(f, "A bit of the header that must be zero is set."),
        }
    }
}

// A trace that is refused before its records: 1 to 5. The speed table and the page are this program's own, so 6 and 7 are never given.
#[derive(Clone, Copy)]
pub struct Fault {
    refusal: Refusal,
    wrong: Wrong,
}

impl Fault {
    // "Under 16 bytes": there is no header, and no count.
    pub fn no_header(bytes: usize) -> Fault {
        Fault {
            refusal: Refusal::WrongLength,
            wrong: Wrong::Length { bytes, count: 0 },
        }
    }

    // The fault of a file of so many bytes with this header; none where a record is refused.
    pub fn of(refusal: Refusal, h: Header, bytes: usize) -> Option<Fault> {
        let count = h.count;
        let wrong = match refusal {
            Refusal::WrongLength => Wrong::Length { bytes, count },
            Refusal::WrongVersion => Wrong::Version(h.version),
            Refusal::WrongPeriod => Wrong::Period(h.period),
            Refusal::WrongGrade => Wrong::Grade(h.grade),
            Refusal::HeaderZeros => Wrong::ZeroBits,
            _ => return None,
        };
        Some(Fault { refusal, wrong })
    }
}

// The number, then what is wrong and what was asked.
impl fmt::Display for Fault {
    fn fmt<W: fmt::Write>(&self, f: &mut fmt::Formatter<W>) -> fmt::Result {
        let number = self.refusal.number();
        write!(
            f,
            "The trace is refused with number {number}, before its records.\n{}\n",
            self.wrong
        )
    }
}

// A record's command, for what is printed of it: of a LOAD MODE its word; its bank, row and column, as it has them. A READ or WRITE is for the
// row that is open.
#[derive(Clone, Copy)]
struct Asked {
    record: Record,
    status: Status,
}

impl Asked {
    // `bank 1 row 7 column 5 with auto precharge` of a READ or WRITE.
    fn cells<W: fmt::Write>(&self, f: &mut fmt::Formatter<W>) -> fmt::Result {
        let r = self.record;
        write!(f, "bank {}", r.ba)?;
        if let Status::Open { row, .. } = self.status {
            write!(f, " row {row}")?;
        }
        write!(f, " column {}", r.column)?;
        if layout::a10(r.addr) {
            write!(f, " with auto precharge")?;
        }
        Ok(())
    }
}

impl fmt::Display for Asked {
    fn fmt<W: fmt::Write>(&self, f: &mut fmt::Formatter<W>) -> fmt::Result {
        let r = self.record;
        match Command::from(r.code) {
            Command::LoadMode if r.ba != 0 => write!(
                f,
                "LOAD MODE {:04x} with BA {}",
                r.addr, r.ba
            ),
            Command::LoadMode => write!(f, "LOAD MODE {:04x}", r.addr),
            Command::Refresh => write!(f, "AUTO REFRESH"),
            Command::Precharge if layout::a10(r.addr) => write!(f, "PRECHARGE ALL"),
            Command::Precharge => write!(f, "PRECHARGE bank {}", r.ba),
            Command::Active => write!(f, "ACTIVE bank {} row {}", r.ba, r.addr),
            Command::Write => {
                write!(f, "WRITE ")?;
                self.cells(f)
            }
            Command::Read => {
                write!(f, "READ ")?;
                self.cells(f)
            }
            Command::Terminate => write!(f, "BURST TERMINATE"),
            Command::Nop => write!(f, "NOP"),
            Command::Inhibit => write!(f, "COMMAND INHIBIT"),
        }
    }
}

// All that is said of a refused record.
impl fmt::Display for Halt {
    fn fmt<W: fmt::Write>(&self, f: &mut fmt::Formatter<W>) -> fmt::Result {
        let number = self.refusal.number();
        write!(f, "Record {} is refused with number {number}", self.place)?;
        if let Refusal::TooSoon(minimum) = self.refusal {
            write!(f, ", interval {}", minimum.number())?;
        }
        let asked = Asked {
            record: self.record,
            status: self.status(),
        };
        let at = Moment::on(self.clock(), self.period());
        let sentence = self.sentence();
        write!(f, ".\nCommand: {asked}{at}.\n{sentence}\n")?;
        match self.times() {
            Some(times) => write!(f, "{times}"),
            None => Ok(()),
        }
    }
}
