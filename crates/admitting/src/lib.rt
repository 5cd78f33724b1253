// What is tried before a record is looked at: the bytes, the table, the page and the state.
#![tactic(auto)]

ghost use Rattle.std.specs.Prelude.{◌≡◌};
ghost use Rattle.rules.specs.Numbers.{first_broken};
ghost use Rattle.rules.specs.OneRecord.{fit_rules, state_rules};
ghost use Rattle.rules.specs.Report.{records_rules};

mod states;

use rules::{Refusal, Setup, State};
use units::Module;

// 6, 7 and 25.
fn fit_verdict(u: Setup, s: State, lent: usize) -> Result<(), Refusal>
    ensures { result ≡ first_broken (fit_rules u s lent) }
{
    let m = Module::of_grade(s.core.grade);
    if !u.table.fits() {
        return Err(Refusal::WrongTable);
    }
    if lent != m.page_bytes() {
        return Err(Refusal::WrongPage);
    }
    if !states::fits(s) {
        return Err(Refusal::UnfitState);
    }
    Ok(())
}

// 3, 4, 6, 7 and 25.
#[tactic(auto, unfolding(rules::specs::OneRecord::state_rules))]
pub fn state_verdict(u: Setup, s: State, lent: usize) -> Result<(), Refusal>
    ensures { result ≡ first_broken (state_rules u s lent) }
{
    if !rules::period_fits(s.core.period) {
        return Err(Refusal::WrongPeriod);
    }
    if !rules::grade_known(s.core.grade) {
        return Err(Refusal::WrongGrade);
    }
    fit_verdict(u, s, lent)
}

// What is tried before the first record: whole records, then 3, 4, 6, 7 and 25.
#[tactic(auto, unfolding(rules::specs::Report::records_rules))]
pub fn records_verdict(u: Setup, s: State, bytes: usize, lent: usize) -> Result<(), Refusal>
    ensures { result ≡ first_broken (records_rules u s bytes lent) }
{
    if bytes % 16 != 0 {
        return Err(Refusal::WrongLength);
    }
    state_verdict(u, s, lent)
}
