// A minimum since a clock, an event, the ACTIVE of an open bank, its last store, a closing.
ghost use Rattle.std.specs.Prelude.{◌≡◌};
ghost use Rattle.units.specs.Reach.{Reach, FitPeriod};
ghost use Rattle.rules.specs.Admitted.{FitEvent, FitStatus};
ghost use Rattle.asking.specs.Shorts.{FitSpan, short_on, short_since, short_after, short_opened, short_stored, short_closed};

use rules::Status;
use units::{Clock, Ps, time};

// A minimum since clock n is not met. By the sum, as document 01 says it: the table's bounds keep it below 64 bits.
#[tactic(auto, unfolding(crate::specs::Shorts::short_on))]
pub fn short_on(period: Ps, n: Clock, min: Ps, moment: Ps) -> bool
    requires { Reach period n × FitSpan min }
    ensures { result ≡ short_on period n min moment }
{
    let from = time::at(period, n);
    moment.0 < from.0 + min.0
}

// "A minimum is met if its event has never occurred."
#[tactic(auto, unfolding(crate::specs::Shorts::short_since))]
pub fn short_since(period: Ps, event: Option<Clock>, min: Ps, moment: Ps) -> bool
    requires { FitPeriod period × FitEvent event × FitSpan min }
    ensures { result ≡ short_since period event min moment }
{
    match event {
        None => false,
        Some(n) => short_on(period, n, min, moment),
    }
}

// Since the ACTIVE of an open bank.
#[tactic(auto, unfolding(crate::specs::Shorts::short_opened))]
pub fn short_opened(period: Ps, status: Status, min: Ps, moment: Ps) -> bool
    requires { FitPeriod period × FitStatus status × FitSpan min }
    ensures { result ≡ short_opened period status min moment }
{
    match status {
        Status::Open { active, .. } => short_on(period, active, min, moment),
        Status::NotStarted | Status::Closed { .. } => false,
    }
}

// Since an event, where that is after clock n.
#[tactic(auto, unfolding(crate::specs::Shorts::short_after))]
fn short_after(period: Ps, n: Clock, event: Option<Clock>, min: Ps, moment: Ps) -> bool
    requires { FitPeriod period × FitEvent event × FitSpan min }
    ensures { result ≡ short_after period n event min moment }
{
    match event {
        None => false,
        Some(x) => n < x && short_on(period, x, min, moment),
    }
}

// Since the last store in an open bank, where that is "after its ACTIVE".
#[tactic(auto, unfolding(crate::specs::Shorts::short_stored))]
pub fn short_stored(period: Ps, status: Status, stored: Option<Clock>, min: Ps, moment: Ps) -> bool
    requires { FitPeriod period × FitEvent stored × FitSpan min }
    ensures { result ≡ short_stored period status stored min moment }
{
    match status {
        Status::Open { active, .. } => short_after(period, active, stored, min, moment),
        Status::NotStarted | Status::Closed { .. } => false,
    }
}

// Since the closing of a closed bank.
#[tactic(auto, unfolding(crate::specs::Shorts::short_closed))]
pub fn short_closed(status: Status, min: Ps, moment: Ps) -> bool
    requires { FitStatus status × FitSpan min }
    ensures { result ≡ short_closed status min moment }
{
    match status {
        Status::NotStarted | Status::Open { .. } => false,
        Status::Closed { closing } => moment.0 < closing.0 + min.0,
    }
}
