// When auto precharge closes a bank.
ghost use Rattle.std.specs.Prelude.{◌≡◌, ◌≤◌};
ghost use Rattle.rules.specs.Rules.{clock_max, asks_auto};
ghost use Rattle.rules.specs.Closing.{burst_end, closing_time, ends_by_itself};

use crate::timing::Timing;
use layout::{Command, Record};
use units::{Clock, Ps, time};

// "For a READ at r, clock r + length; for a WRITE with last beat at e, clock e + 1 plus the addition in ps, not rounded."
pub fn burst_end(k: Command, timing: Timing, word: u16, n: Clock) -> Ps
    requires { n.0 ≤ clock_max }
    ensures { result ≡ burst_end k timing.table timing.period word n }
{
    if k == Command::Write {
        let length = mode::write_length(word) as u64;
        let end = time::at(timing.period, Clock(n.0 + length));
        return Ps(end.0 + timing.table.addition.0);
    }
    let length = mode::length_of(word) as u64;
    time::at(timing.period, Clock(n.0 + length))
}

// "The later of ACTIVE + tRAS min and" the end of the burst.
pub fn closing_time(timing: Timing, active: Clock, end: Ps) -> Ps
    requires { active.0 ≤ clock_max }
    ensures { result ≡ closing_time timing.table timing.period active end }
{
    let opened = time::at(timing.period, active);
    let earliest = Ps(opened.0 + timing.table.trasmin.0);
    earliest.later(end)
}

// Number 21 "concerns a READ in full-page mode, and a WRITE there unless M9 = 1".
pub fn ends_by_itself(k: Command, word: u16) -> bool
    ensures { result ≡ ends_by_itself k word }
{
    let full = mode::full_page(word);
    let single = mode::single(word);
    !full | ((k == Command::Write) & single)
}

// A READ or WRITE with auto precharge.
pub fn asks_auto(k: Command, r: Record) -> bool
    ensures { result ≡ asks_auto k r }
{
    k.is_access() & layout::a10(r.addr)
}
