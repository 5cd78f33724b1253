// The event that a minimum or a maximum counts from, as the state before the refused record holds it (01, Commands and what each must
// find).
use crate::figures::Moment;
use bursts::Bus;
use layout::{Command, Record};
use rules::{Bank, Interval, StartUp, State, Status};
use std::fmt;
use units::time::lasts;
use units::{Clock, Ps};

// What an event was, with the bank that it concerns.
#[derive(Clone, Copy)]
pub enum Kind {
    Refresh,
    Load,
    AllClosed,
    Active(u8),
    Store(u8),
    Closing(u8),
    WriteBurst(u8),
    ReadBurst(u8),
}

impl fmt::Display for Kind {
    fn fmt<W: fmt::Write>(&self, f: &mut fmt::Formatter<W>) -> fmt::Result {
        match *self {
            Kind::Refresh => write!(f, "the last AUTO REFRESH"),
            Kind::Load => write!(f, "the last LOAD MODE"),
            Kind::AllClosed => write!(f, "the last PRECHARGE ALL"),
            Kind::Active(bank) => write!(f, "the ACTIVE of bank {bank}"),
            Kind::Store(bank) => write!(f, "the last stored byte of bank {bank}"),
            Kind::Closing(bank) => write!(f, "the closing of bank {bank}"),
            Kind::WriteBurst(bank) => write!(f, "the WRITE with auto precharge of bank {bank}"),
            Kind::ReadBurst(bank) => write!(f, "the READ with auto precharge of bank {bank}"),
        }
    }
}

// An event and when it was: `the ACTIVE of bank 1, on clock 13357, at 100177.500 ns`.
#[derive(Clone, Copy)]
pub struct Since {
    pub kind: Kind,
    pub at: Moment,
}

impl Since {
    fn on(kind: Kind, n: Clock, period: Ps) -> Since {
        let at = Moment::on(n, period);
        Since { kind, at }
    }

    // The same for an event that may never have occurred.
    fn of(kind: Kind, event: Option<Clock>, period: Ps) -> Option<Since> {
        Some(Since::on(kind, event?, period))
    }

    // What opened bank i, where it is open.
    fn opening(i: u8, status: Status, period: Ps) -> Option<Since> {
        match status {
            Status::Open { active, .. } => Some(Since::on(Kind::Active(i), active, period)),
            _ => None,
        }
    }

    // What closed bank i, where it is closed: it may stand between two clocks.
    fn closing(i: u8, status: Status, period: Ps) -> Option<Since> {
        match status {
            Status::Closed { closing: time } => {
                let at = Moment { time, period };
                Some(Since {
                    kind: Kind::Closing(i),
                    at,
                })
            }
            _ => None,
        }
    }
}

impl fmt::Display for Since {
    fn fmt<W: fmt::Write>(&self, f: &mut fmt::Formatter<W>) -> fmt::Result {
        write!(f, "{}{}", self.kind, self.at)
    }
}

// What is looked for: the event of a minimum, the row that is open the longest, or what made the state of the record's own bank.
#[derive(Clone, Copy)]
pub enum Sought {
    Minimum(Interval),
    LongestOpen,
    OwnStatus,
}

impl Sought {
    // The one that is counted from: of minima the last event, of open rows the first.
    fn chosen(self, a: Option<Since>, b: Option<Since>) -> Option<Since> {
        let (Some(x), Some(y)) = (a, b) else {
            return a.or(b);
        };
        let earlier = x.at.time < y.at.time;
        if earlier == matches!(self, Sought::LongestOpen) {
            a
        } else {
            b
        }
    }

    // Bank i is asked: tRRD each other bank; the longest open row, AUTO REFRESH and LOAD MODE each of the four; PRECHARGE the banks that it
    // is for; BURST TERMINATE none.
    fn asks(self, r: Record, i: u8) -> bool {
        match self {
            Sought::Minimum(Interval::Rrd) => i != r.ba,
            Sought::LongestOpen => true,
            _ => match Command::from(r.code) {
                Command::LoadMode | Command::Refresh => true,
                Command::Precharge => layout::covers(r.addr, r.ba, i),
                Command::Terminate => false,
                _ => i == r.ba,
            },
        }
    }

    // Of bank i, which is asked: tRC and tRRD count from its last ACTIVE, closed since or not; tRP from its closing; tWR from its last store
    // while it is open; the other minima, tRFC and tMRD too, from the ACTIVE that opened it.
    fn of_bank(self, i: u8, b: Bank, period: Ps) -> Option<Since> {
        let opened = Since::opening(i, b.status, period);
        let closed = Since::closing(i, b.status, period);
        match self {
            Sought::LongestOpen => opened,
            Sought::OwnStatus => opened.or(closed),
            Sought::Minimum(minimum) => match minimum {
                Interval::Rc | Interval::Rrd => Since::of(Kind::Active(i), b.active, period),
                Interval::Rp => closed,
                Interval::Wr if opened.is_none() => None,
                Interval::Wr => Since::of(Kind::Store(i), b.stored, period),
                _ => opened,
            },
        }
    }

    // What is no bank's: the last PRECHARGE ALL, refresh and mode load.
    fn of_all(self, u: StartUp, period: Ps) -> Option<Since> {
        let Sought::Minimum(minimum) = self else {
            return None;
        };
        match minimum {
            Interval::Rp => Since::of(Kind::AllClosed, u.allclosed, period),
            Interval::Rfc => Since::of(Kind::Refresh, u.refreshes.last(), period),
            Interval::Mrd => Since::of(Kind::Load, u.last_load(), period),
            _ => None,
        }
    }

    // The event that this record's time is counted from.
    pub fn event(self, s: &State, r: Record) -> Option<Since> {
        let period = s.core.period;
        let mut since = self.of_all(s.core.startup, period);
        for (i, &bank) in (0..).zip(s.banks.iter()) {
            if self.asks(r, i) {
                since = self.chosen(since, self.of_bank(i, bank, period));
            }
        }
        since
    }
}

// 19: the burst that is unfinished on clock n, and how long it lasts. It is the latest: none may follow it.
#[derive(Clone, Copy)]
pub struct Unfinished {
    pub since: Since,
    pub length: Ps,
}

impl Unfinished {
    pub fn on_bus(bus: &Bus, n: Clock, period: Ps) -> Unfinished {
        let write = bus.write;
        let read = bus.reads[0];
        let length = mode::write_length(write.word);
        let (kind, start, length) = if write.finished(length, n) {
            (
                Kind::ReadBurst(read.bank),
                read.start,
                mode::length_of(read.word),
            )
        } else {
            (Kind::WriteBurst(write.bank), write.start, length)
        };
        Unfinished {
            since: Since::on(kind, start, period),
            length: lasts(Clock(u64::from(length)), period),
        }
    }
}
