// What may not last too long: numbers 12 and 22.
ghost use Rattle.std.specs.Prelude.{◌≡◌};
ghost use Rattle.units.specs.Reach.{FitPeriod};
ghost use Rattle.rules.specs.Admitted.{FitEvent, FitStatus};
ghost use Rattle.rules.specs.Closing.{closes_within};
ghost use Rattle.rules.specs.Rules.{within};

use rules::timing::Timing;
use rules::{Status, closing};
use units::{Clock, Ps, time};

// A maximum since an event is not passed; "no maximum is passed" where the event is ahead.
pub fn within(period: Ps, max: Ps, moment: Ps, event: Option<Clock>) -> bool
    requires { FitPeriod period × FitEvent event }
    ensures { result ≡ within period max moment event }
{
    match event {
        None => true,
        Some(n) => time::at(period, n).within(max, moment),
    }
}

// Number 22: the closing is not "later than tRAS max after the ACTIVE".
pub fn closes_within(timing: Timing, end: Ps, x: Status) -> bool
    requires { FitStatus x }
    ensures { result ≡ closes_within timing.table timing.period end x }
{
    match x {
        Status::Open { active, .. } => {
            let closing = closing::closing_time(timing, active, end);
            let opened = time::at(timing.period, active);
            opened.within(timing.table.trasmax, closing)
        }
        Status::NotStarted | Status::Closed { .. } => true,
    }
}
