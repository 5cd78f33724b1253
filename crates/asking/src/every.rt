// What every record is asked, whatever its command.
ghost use Rattle.std.specs.Prelude.{◌≡◌};
ghost use Rattle.rules.specs.Numbers.{first_broken};
ghost use Rattle.units.specs.Reach.{FitPeriod};
ghost use Rattle.rules.specs.Admitted.{FitEvent, FitStatus};
ghost use Rattle.rules.specs.StartUp.{last_refresh};
ghost use Rattle.rules.specs.Banks.{open_within};
ghost use Rattle.asking.specs.Moment.{moment_rules};

use crate::maxima;
use layout::Record;
use rules::{CLOCK_MAX, Refreshes, Refusal, Status};
use speed::SpeedTable;
use units::{Clock, Ps, time};

// 10, 23, 11 and 12, which look at no bank. Of the table it asks nothing, where a Timing would.
#[tactic(auto, unfolding(crate::specs::Moment::moment_rules))]
pub fn ask_moment(
    t: SpeedTable,
    period: Ps,
    refreshes: Refreshes,
    r: Record,
    n: Clock,
    moment: Ps,
) -> Result<(), Refusal>
    requires { FitPeriod period × FitEvent (last_refresh refreshes) }
    ensures { result ≡ first_broken (moment_rules t period refreshes r n moment) }
{
    if r.zeros != 0 {
        return Err(Refusal::RecordZeros);
    }
    if CLOCK_MAX < n.0 {
        return Err(Refusal::HighClock);
    }
    if r.cke != 1 {
        return Err(Refusal::CkeLow);
    }
    if !maxima::within(period, t.interval, moment, refreshes.counted()) {
        return Err(Refusal::LateRefresh);
    }
    Ok(())
}

// A bank's row is not "open longer than tRAS max".
pub fn open_within(period: Ps, max: Ps, moment: Ps, x: Status) -> bool
    requires { FitPeriod period × FitStatus x }
    ensures { result ≡ open_within period max moment x }
{
    match x {
        Status::Open { active, .. } => time::at(period, active).within(max, moment),
        Status::NotStarted | Status::Closed { .. } => true,
    }
}
