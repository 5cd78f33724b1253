// Number 25: what a state may hold.
ghost use Rattle.std.specs.Prelude.{◌≡◌};
ghost use Rattle.rules.specs.Banks.{every};
ghost use Rattle.rules.specs.Fits.{clock_fits, event_fits, status_fits, bank_fits, burst_fits, bursts_fit, bus_fits, register_fits, startup_fits, core_fits, fits};

use bursts::{Burst, Bus};
use rules::{Bank, CLOCK_MAX, Core, NUMBER_MAX, Register, StartUp, State, Status};
use units::{BANKS, Clock, Module, Ps};

// "A time above 2^58 ps."
const CLOSING_MAX: Ps = Ps(288_230_376_151_711_744);

fn clock_fits(n: Clock) -> bool
    ensures { result ≡ clock_fits n }
{
    n.0 <= CLOCK_MAX
}

fn event_fits(e: Option<Clock>) -> bool
    ensures { result ≡ event_fits e }
{
    e.is_none_or(clock_fits)
}

fn status_fits(m: Module, x: Status) -> bool
    ensures { result ≡ status_fits m x }
{
    match x {
        Status::NotStarted => true,
        Status::Open { row, active } => row < m.rows() && clock_fits(active),
        Status::Closed { closing } => closing <= CLOSING_MAX,
    }
}

#[tactic(auto, unfolding(rules::specs::Fits::bank_fits))]
fn bank_fits(m: Module, b: Bank) -> bool
    ensures { result ≡ bank_fits m b }
{
    status_fits(m, b.status) && event_fits(b.active) && event_fits(b.stored)
}

fn banks_fit(m: Module, all: [Bank; 4]) -> bool
    ensures { result ≡ every (bank_fits m) all }
{
    all.iter().all(|b| bank_fits(m, *b))
}

// "A reserved mode word, or a bank, row or column off the module."
#[tactic(auto, unfolding(rules::specs::Fits::burst_fits))]
fn burst_fits(m: Module, b: Burst) -> bool
    ensures { result ≡ burst_fits m b }
{
    b.bank < BANKS
        && b.row < m.rows()
        && b.column < m.columns()
        && clock_fits(b.start)
        && event_fits(b.cut)
        && mode::legal(m, b.word)
}

fn bursts_fit(m: Module, reads: [Burst; 4]) -> bool
    ensures { result ≡ bursts_fit m reads }
{
    reads.iter().all(|b| burst_fits(m, *b))
}

fn bus_fits(m: Module, u: Bus) -> bool
    ensures { result ≡ bus_fits m u }
{
    burst_fits(m, u.write) && bursts_fit(m, u.reads)
}

fn register_fits(m: Module, x: Option<Register>) -> bool
    ensures { result ≡ register_fits m x }
{
    x.is_none_or(|r| mode::legal(m, r.word) && clock_fits(r.clock))
}

fn startup_fits(m: Module, u: StartUp) -> bool
    ensures { result ≡ startup_fits m u }
{
    event_fits(u.allclosed) && event_fits(u.refreshes.last()) && register_fits(m, u.register)
}

#[tactic(auto, unfolding(rules::specs::Fits::core_fits))]
fn core_fits(m: Module, c: Core) -> bool
    ensures { result ≡ core_fits m c }
{
    c.bank < BANKS
        && c.row < m.rows()
        && c.number <= NUMBER_MAX
        && event_fits(c.last)
        && startup_fits(m, c.startup)
        && bus_fits(m, c.bus)
}

#[tactic(auto, unfolding(rules::specs::Fits::fits))]
pub fn fits(s: State) -> bool
    ensures { result ≡ fits s }
{
    let m = Module::of_grade(s.core.grade);
    core_fits(m, s.core) && banks_fit(m, s.banks)
}
