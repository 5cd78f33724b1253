// The clock of a record.
ghost use Rattle.std.specs.Prelude.{◌≡◌, ◌+◌};
ghost use Rattle.units.specs.Time.{clock};
ghost use Rattle.rules.specs.Parts.{next_clock};
ghost use Rattle.rules.specs.Admitted.{FitEvent};

use units::Clock;

fn next_clock(last: Option<Clock>) -> u64
    requires { FitEvent last }
    ensures { result ≡ next_clock last }
{
    match last {
        None => 0,
        Some(x) => x.0 + 1,
    }
}

// "The first record stands on the clock equal to its skipped count; each later one on the previous clock plus its skipped
// count plus 1."
pub fn clock_of(last: Option<Clock>, skipped: u32) -> Clock
    requires { FitEvent last }
    ensures { result ≡ clock (next_clock last + skipped) }
{
    Clock(next_clock(last) + skipped as u64)
}
