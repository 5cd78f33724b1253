// The one passage from clocks to picoseconds.
ghost use Rattle.std.specs.Prelude.{◌≡◌};
ghost use Rattle.units.specs.Time.{at, lasts};
ghost use Rattle.units.specs.Reach.{Reach};

use crate::{Clock, Ps};

// "A count of n clocks lasts n times the period."
pub fn at(period: Ps, n: Clock) -> Ps
    requires { Reach period n }
    ensures { result ≡ at period n }
{
    Ps(n.0 * period.0)
}

// The last clock in reach: "the clock is above 2^40" is 23, and a skip or a full page lies past it.
const CLOCK_MAX: Clock = Clock(1_099_545_182_208);

const PERIOD_MAX: Ps = Ps(65_535);

// The same for every clock and period, and 0 out of reach.
#[tactic(auto, unfolding(crate::specs::Time::lasts))]
pub fn lasts(n: Clock, period: Ps) -> Ps
    ensures { result ≡ lasts n period }
{
    if n <= CLOCK_MAX && period <= PERIOD_MAX {
        at(period, n)
    } else {
        Ps(0)
    }
}
