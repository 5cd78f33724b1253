// Times, as they are printed.
use std::fmt;
use units::time::lasts;
use units::{Clock, Ps};

// A time in ns with every picosecond: `7.500 ns`.
#[derive(Clone, Copy)]
pub struct Ns(pub Ps);

impl fmt::Display for Ns {
    fn fmt<W: fmt::Write>(&self, f: &mut fmt::Formatter<W>) -> fmt::Result {
        let ps = self.0.0;
        write!(f, "{}.{:03} ns", ps / 1_000, ps % 1_000)
    }
}

// A time, and the period of the clocks: it stands on a clock, or between two.
#[derive(Clone, Copy)]
pub struct Moment {
    pub time: Ps,
    pub period: Ps,
}

impl Moment {
    pub fn on(n: Clock, period: Ps) -> Moment {
        let time = lasts(n, period);
        Moment { time, period }
    }

    // The clock that it stands on: the one whose product with the period it is.
    fn clock(self) -> Option<u64> {
        let between = self.time.0.checked_rem(self.period.0)?;
        if between == 0 {
            self.time.0.checked_div(self.period.0)
        } else {
            None
        }
    }
}

// `, on clock 13363, at 100222.500 ns`, or `, at 120418.500 ns`.
impl fmt::Display for Moment {
    fn fmt<W: fmt::Write>(&self, f: &mut fmt::Formatter<W>) -> fmt::Result {
        if let Some(n) = self.clock() {
            write!(f, ", on clock {n}")?;
        }
        write!(f, ", at {}", Ns(self.time))
    }
}
