// The times that a refused record involves: what was asked, since which event, and until when.
use crate::broken::Step;
use crate::events::{Since, Sought, Unfinished};
use crate::figures::Ns;
use crate::walking::Halt;
use layout::Command;
use rules::{Interval, Refusal};
use std::fmt;
use units::time::lasts;
use units::{Clock, Ps};

// The first PRECHARGE ALL: "that command must stand at 100,000,000 ps or later".
const POWER_UP: Ps = Ps(100_000_000);

// What a rule asks of a time.
#[derive(Clone, Copy)]
pub enum Limit {
    AtLeast(Ps),
    AtMost(Ps),
}

impl fmt::Display for Limit {
    fn fmt<W: fmt::Write>(&self, f: &mut fmt::Formatter<W>) -> fmt::Result {
        match *self {
            Limit::AtLeast(t) => write!(f, "at least {}", Ns(t)),
            Limit::AtMost(t) => write!(f, "at most {}", Ns(t)),
        }
    }
}

// What was asked of the time from an event, or from the start, until another time.
#[derive(Clone, Copy)]
pub struct Held {
    pub limit: Limit,
    pub since: Option<Since>,
    pub until: Ps,
}

// `Asked: at least 15.000 ns since ..`, and `Found: 7.500 ns.`, the time from the event; an event may still be ahead.
impl fmt::Display for Held {
    fn fmt<W: fmt::Write>(&self, f: &mut fmt::Formatter<W>) -> fmt::Result {
        write!(f, "Asked: {}", self.limit)?;
        let mut from = Ps(0);
        if let Some(since) = self.since {
            write!(f, " since {since}")?;
            from = since.at.time;
        }
        let apart = Ns(Ps(self.until.0.abs_diff(from.0)));
        if self.until < from {
            write!(f, ".\nFound: it is still ahead, by {apart}.\n")
        } else {
            write!(f, ".\nFound: {apart}.\n")
        }
    }
}

// What is said of times: what was asked and what was found, or the event alone.
#[derive(Clone, Copy)]
pub enum Times {
    Held(Held),
    Found(Since),
}

impl fmt::Display for Times {
    fn fmt<W: fmt::Write>(&self, f: &mut fmt::Formatter<W>) -> fmt::Result {
        match self {
            Times::Held(held) => write!(f, "{held}"),
            Times::Found(since) => writeln!(f, "Found: {since}."),
        }
    }
}

// A time m after e.
fn plus(e: Ps, m: Ps) -> Ps {
    Ps(e.0.saturating_add(m.0))
}

impl Halt {
    fn minimum(&self, minimum: Interval) -> Ps {
        let t = self.table;
        match minimum {
            Interval::Rcd => t.trcd,
            Interval::Ras => t.trasmin,
            Interval::Rc => t.trc,
            Interval::Rp => t.trp,
            Interval::Rrd => t.trrd,
            Interval::Rfc => t.trfc,
            Interval::Wr => t.twr,
            Interval::Mrd => lasts(t.tmrd, self.period()),
        }
    }

    // "tCK of the chosen latency."
    fn tck(&self) -> Ps {
        match mode::latency(self.record.addr) {
            2 => self.table.tck2,
            _ => self.table.tck3,
        }
    }

    // 19: the burst that no other may cut.
    fn unfinished(&self) -> Unfinished {
        Unfinished::on_bus(&self.state.core.bus, self.clock(), self.period())
    }

    // 22: when auto precharge would close the bank whose ACTIVE stood at `active`: "the later of ACTIVE + tRAS min and: for a READ at r,
    // clock r + length; for a WRITE with last beat at e, clock e + 1 plus the addition".
    fn closing(&self, active: Ps) -> Ps {
        let word = self.state.core.startup.word();
        let (length, addition) = match self.command() {
            Command::Write => (mode::write_length(word), self.table.addition),
            _ => (mode::length_of(word), Ps(0)),
        };
        let ended = plus(self.now(), lasts(Clock(u64::from(length)), self.period()));
        plus(active, self.table.trasmin).later(plus(ended, addition))
    }

    // The event that the rule counts from: that of a minimum, for 12 that of tRFC, the longest open row, the burst, or what made the own
    // bank's state.
    fn since(&self) -> Option<Since> {
        let sought = match self.refusal {
            Refusal::TooSoon(minimum) => Sought::Minimum(minimum),
            Refusal::LateRefresh => Sought::Minimum(Interval::Rfc),
            Refusal::LongRow => Sought::LongestOpen,
            Refusal::UnfinishedBurst => return Some(self.unfinished().since),
            Refusal::BankState if self.command().looks_at_all() => Sought::LongestOpen,
            Refusal::BankState | Refusal::LateClosing => Sought::OwnStatus,
            _ => return None,
        };
        sought.event(&self.state, self.record)
    }

    // What the rule asks of the time from there on; a PRECHARGE ALL that is too early counts from the start.
    fn limit(&self) -> Option<Limit> {
        match self.refusal {
            Refusal::LateRefresh => Some(Limit::AtMost(self.table.interval)),
            Refusal::LongRow | Refusal::LateClosing => Some(Limit::AtMost(self.table.trasmax)),
            Refusal::StartUpStep if self.step() == Step::TooEarly => Some(Limit::AtLeast(POWER_UP)),
            Refusal::TooSoon(minimum) => Some(Limit::AtLeast(self.minimum(minimum))),
            Refusal::ShortClock => Some(Limit::AtLeast(self.tck())),
            Refusal::UnfinishedBurst => Some(Limit::AtLeast(self.unfinished().length)),
            _ => None,
        }
    }

    // The time that is held against it: the record's, but for the period and for a closing.
    fn until(&self, since: Option<Since>) -> Ps {
        match (self.refusal, since) {
            (Refusal::ShortClock, _) => self.period(),
            (Refusal::LateClosing, Some(active)) => self.closing(active.at.time),
            _ => self.now(),
        }
    }

    // The times of the refusal, where its rule has any.
    pub fn times(&self) -> Option<Times> {
        let since = self.since();
        let Some(limit) = self.limit() else {
            return Some(Times::Found(since?));
        };
        let until = self.until(since);
        Some(Times::Held(Held {
            limit,
            since,
            until,
        }))
    }
}
