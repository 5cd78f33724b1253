// 17 to 22: the mode word of a LOAD MODE, and the data bus.
ghost use Rattle.std.specs.Prelude.{◌≡◌, true, ◌||◌, cond, eqb, ◌≤◌, ◌<◌};
ghost use Rattle.layout.specs.Commands.{is, access};
ghost use Rattle.bursts.specs.Bus.{bursts_finished, bus_clear};
ghost use Rattle.layout.specs.declared.Command.TheVariants as Command;
ghost use Rattle.rules.specs.Numbers.{first_broken, ◌⇒◌};
ghost use Rattle.rules.specs.Parts.{word};
ghost use Rattle.rules.specs.Admitted.{FitStatus};
ghost use Rattle.rules.specs.Rules.{clock_max, mode_rules, bus_rules};
ghost use Rattle.asking.specs.Answers.{auto_answer};

use crate::maxima;
use bus::databus;
use layout::{Command, Record};
use rules::timing::Timing;
use rules::{Core, Refusal, Status, closing};
use speed::SpeedTable;
use units::{Clock, Module, Ps};

// "tCK of the chosen latency."
fn tck_of(t: SpeedTable, latency: u8) -> Ps
    ensures { result ≡ cond (eqb latency 2) t.tck2 t.tck3 }
{
    if latency == 2 { t.tck2 } else { t.tck3 }
}

// 17 and 18 of a LOAD MODE: "all else is 17". It asks nothing of table and period, where a Timing would.
#[tactic(auto, unfolding(rules::specs::Rules::mode_rules))]
pub fn mode_verdict(t: SpeedTable, unit: Module, period: Ps, r: Record) -> Result<(), Refusal>
    ensures { result ≡ first_broken (mode_rules Command.LoadMode t unit period r) }
{
    let Some(m) = mode::decode(unit, r.addr) else {
        return Err(Refusal::ReservedMode);
    };
    if r.ba != 0 {
        return Err(Refusal::ReservedMode);
    }
    if period < tck_of(t, m.latency) {
        return Err(Refusal::ShortClock);
    }
    Ok(())
}

// 21 and 22 of a READ or WRITE that asks auto precharge.
#[tactic(auto, unfolding(crate::specs::Answers::auto_answer))]
fn auto_verdict(
    k: Command,
    timing: Timing,
    c: Core,
    status: Status,
    n: Clock,
) -> Result<(), Refusal>
    requires { (c.period ≡ timing.period) × FitStatus status × (n.0 ≤ clock_max) }
    ensures { result ≡ auto_answer k timing.table c status n }
{
    let word = c.startup.word();
    if !closing::ends_by_itself(k, word) {
        return Err(Refusal::EndlessBurst);
    }
    let end = closing::burst_end(k, timing, word, n);
    if !maxima::closes_within(timing, end, status) {
        return Err(Refusal::LateClosing);
    }
    Ok(())
}

// Number 20: a WRITE needs the data bus to itself, and no other command does.
fn clear_for(k: Command, c: Core, n: Clock) -> bool
    ensures { result ≡ (is k Command.Write ⇒ bus_clear c.last c.bus.masks c.bus.reads n) }
{
    k != Command::Write || databus::bus_clear(c.last, c.bus.masks, c.bus.reads, n)
}

// 19 to 22 of a WRITE, READ or BURST TERMINATE.
#[tactic(auto, unfolding(bursts::specs::Bus::bursts_finished, bursts::specs::Bus::bus_clear, rules::specs::Rules::bus_rules))]
pub fn bus_verdict(
    k: Command,
    timing: Timing,
    c: Core,
    status: Status,
    r: Record,
    n: Clock,
) -> Result<(), Refusal>
    requires { (c.period ≡ timing.period) × FitStatus status × (n.0 ≤ clock_max) × ((access k || is k Command.Terminate) ≡ true) }
    ensures { result ≡ first_broken (bus_rules k timing.table c.period (word c) (bursts_finished c.bus.write c.bus.reads n)
        (bus_clear c.last c.bus.masks c.bus.reads n) status r n) }
{
    if !databus::bursts_finished(c.bus.write, c.bus.reads, n) {
        return Err(Refusal::UnfinishedBurst);
    }
    if !clear_for(k, c, n) {
        return Err(Refusal::BusNotClear);
    }
    if closing::asks_auto(k, r) {
        return auto_verdict(k, timing, c, status, n);
    }
    Ok(())
}
