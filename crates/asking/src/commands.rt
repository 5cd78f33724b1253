// Asking: each command is asked only what document 01 asks of it. Asking reads, and changes nothing.
//
// `own` is the record's bank of `all`: a function that looks it up by its number would copy the four to do so.
ghost use Rattle.std.specs.Prelude.{◌≡◌, true, false, ◌||◌, ◌&&◌, ◌≤◌, ◌<◌};
ghost use Rattle.layout.specs.Commands.{is, looks_at_all, access, precharge_all};
ghost use Rattle.layout.specs.declared.Command.TheVariants as Command;
ghost use Rattle.rules.specs.Numbers.{first_broken, ◌⇒◌};
ghost use Rattle.rules.specs.Parts.{core_module};
ghost use Rattle.rules.specs.Calls.{Call};
ghost use Rattle.rules.specs.StartUp.{begun, two_done, last_load, power_up};
ghost use Rattle.units.specs.Time.{occurred, by};
ghost use Rattle.rules.specs.Banks.{bank_at, is_open};
ghost use Rattle.rules.specs.Rules.{clock_max, command_rules, found};

use crate::{minima, verdicts};
use layout::{Command, Record};
use rules::timing::Timing;
use rules::{Bank, Core, Refusal, StartUp, banks};
use speed::SpeedTable;
use units::{Clock, Module, Ps};

// "At 100,000,000 ps or later."
const POWER_UP: Ps = Ps(100_000_000);

#[tactic(auto, unfolding(rules::specs::Rules::command_rules))]
fn ask_precharge(
    t: SpeedTable,
    c: Core,
    all: [Bank; 4],
    r: Record,
    n: Clock,
    moment: Ps,
) -> Result<(), Refusal>
    requires { Call t c all r × (begun c.startup ≡ true) }
    ensures { result ≡ first_broken (command_rules Command.Precharge t (core_module c) c.period (found c all n) r n moment) }
{
    let timing = Timing {
        table: t,
        period: c.period,
    };
    let any = minima::any_shorts(timing, c.startup, moment);
    let own = minima::precharge_shorts(timing, r, all, moment);
    any.or(own).lowest()
}

#[tactic(auto, unfolding(rules::specs::Rules::command_rules))]
fn ask_refresh(
    t: SpeedTable,
    c: Core,
    all: [Bank; 4],
    r: Record,
    n: Clock,
    moment: Ps,
) -> Result<(), Refusal>
    requires { Call t c all r × (begun c.startup ≡ true) }
    ensures { result ≡ first_broken (command_rules Command.Refresh t (core_module c) c.period (found c all n) r n moment) }
{
    if !banks::all_closed(all) {
        return Err(Refusal::BankState);
    }
    let timing = Timing {
        table: t,
        period: c.period,
    };
    let any = minima::any_shorts(timing, c.startup, moment);
    let idle = minima::idle_shorts(t, c.period, all, moment);
    any.or(idle).lowest()
}

#[tactic(auto, unfolding(rules::specs::Rules::command_rules))]
fn ask_load_mode(
    t: SpeedTable,
    c: Core,
    all: [Bank; 4],
    r: Record,
    n: Clock,
    moment: Ps,
) -> Result<(), Refusal>
    requires { Call t c all r × (begun c.startup ≡ true) }
    ensures { result ≡ first_broken (command_rules Command.LoadMode t (core_module c) c.period (found c all n) r n moment) }
{
    if !c.startup.refreshes.two_done() {
        return Err(Refusal::StartUpStep);
    }
    if !banks::all_closed(all) {
        return Err(Refusal::BankState);
    }
    let timing = Timing {
        table: t,
        period: c.period,
    };
    let any = minima::any_shorts(timing, c.startup, moment);
    let idle = minima::idle_shorts(t, c.period, all, moment);
    any.or(idle).lowest()?;
    verdicts::mode_verdict(t, Module::of_grade(c.grade), c.period, r)
}

// "That command must stand at 100,000,000 ps or later": it is the first PRECHARGE ALL.
fn begins(k: Command, r: Record, moment: Ps) -> bool
    ensures { result ≡ (precharge_all k r && by power_up moment) }
{
    k == Command::Precharge && layout::a10(r.addr) && POWER_UP <= moment
}

// "Before the first PRECHARGE ALL only NOP and COMMAND INHIBIT are allowed."
#[tactic(auto, unfolding(rules::specs::Rules::command_rules))]
fn ask_first(
    k: Command,
    t: SpeedTable,
    c: Core,
    all: [Bank; 4],
    r: Record,
    n: Clock,
    moment: Ps,
) -> Result<(), Refusal>
    requires { begun c.startup ≡ false }
    ensures { result ≡ first_broken (command_rules k t (core_module c) c.period (found c all n) r n moment) }
{
    if !begins(k, r, moment) {
        return Err(Refusal::StartUpStep);
    }
    Ok(())
}

// 14 to 18 of LOAD MODE, AUTO REFRESH and PRECHARGE, which look at each of the four banks.
pub fn ask_banks(
    k: Command,
    t: SpeedTable,
    c: Core,
    all: [Bank; 4],
    r: Record,
    n: Clock,
    moment: Ps,
) -> Result<(), Refusal>
    requires { Call t c all r × (looks_at_all k ≡ true) }
    ensures { result ≡ first_broken (command_rules k t (core_module c) c.period (found c all n) r n moment) }
{
    if !c.startup.begun() {
        return ask_first(k, t, c, all, r, n, moment);
    }
    match k {
        Command::Precharge => ask_precharge(t, c, all, r, n, moment),
        Command::Refresh => ask_refresh(t, c, all, r, n, moment),
        _ => ask_load_mode(t, c, all, r, n, moment),
    }
}

// "After the first LOAD MODE everything" is allowed.
fn allows_all(u: StartUp) -> bool
    ensures { result ≡ (begun u && (two_done u.refreshes && occurred (last_load u.register))) }
{
    u.begun() && u.started()
}

// 14 to 16 of ACTIVE.
#[tactic(auto, unfolding(rules::specs::Rules::command_rules))]
pub fn ask_active(
    t: SpeedTable,
    c: Core,
    own: Bank,
    all: [Bank; 4],
    r: Record,
    n: Clock,
    moment: Ps,
) -> Result<(), Refusal>
    requires { Call t c all r × (own ≡ bank_at all r.ba) }
    ensures { result ≡ first_broken (command_rules Command.Active t (core_module c) c.period (found c all n) r n moment) }
{
    if !allows_all(c.startup) {
        return Err(Refusal::StartUpStep);
    }
    if !own.status.is_closed() {
        return Err(Refusal::BankState);
    }
    let timing = Timing {
        table: t,
        period: c.period,
    };
    let any = minima::any_shorts(timing, c.startup, moment);
    let others = minima::active_shorts(timing, r.ba, own, all, moment);
    any.or(others).lowest()
}

// "READ, WRITE: bank open."
fn finds_open(access: bool, own: Bank) -> bool
    ensures { result ≡ (access ⇒ is_open own.status) }
{
    !access || own.status.is_open()
}

// 14 to 22 of WRITE, READ and BURST TERMINATE. BURST TERMINATE names no bank.
#[tactic(auto, unfolding(rules::specs::Rules::command_rules))]
pub fn ask_burst(
    k: Command,
    t: SpeedTable,
    c: Core,
    own: Bank,
    all: [Bank; 4],
    r: Record,
    n: Clock,
    moment: Ps,
) -> Result<(), Refusal>
    requires { Call t c all r × (own ≡ bank_at all r.ba) × ((access k || is k Command.Terminate) ≡ true) × (n.0 ≤ clock_max) }
    ensures { result ≡ first_broken (command_rules k t (core_module c) c.period (found c all n) r n moment) }
{
    let access = k.is_access();
    if !allows_all(c.startup) {
        return Err(Refusal::StartUpStep);
    }
    if !finds_open(access, own) {
        return Err(Refusal::BankState);
    }
    let timing = Timing {
        table: t,
        period: c.period,
    };
    let any = minima::any_shorts(timing, c.startup, moment);
    let rcd = minima::access_shorts(access, timing, own, moment);
    any.or(rcd).lowest()?;
    verdicts::bus_verdict(k, timing, c, own.status, r, n)
}
