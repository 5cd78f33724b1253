// Taking: the next state and the beat of a record that asking has passed.
ghost use Rattle.std.specs.Prelude.{◌≡◌, cond, ◌||◌, ◌≤◌, ◌<◌};
ghost use Rattle.layout.specs.declared.Command.TheVariants.{Active, Precharge};
ghost use Rattle.layout.specs.Commands.{is};
ghost use Rattle.rules.specs.Calls.{BanksFit};
ghost use Rattle.rules.specs.Admitted.{FitBank, FitStatus};
ghost use Rattle.rules.specs.Rules.{asks_auto};
ghost use Rattle.units.specs.Time.{at};
ghost use Rattle.rules.specs.Parts.{word_in};
ghost use Rattle.rules.specs.StartUp.{begun};
ghost use Rattle.rules.specs.Banks.{row_of};
ghost use Rattle.rules.specs.Closing.{burst_end};
ghost use Rattle.rules.specs.Rules.{clock_max};
ghost use Rattle.bursts.specs.Bus.{bus_after};
ghost use Rattle.taking.specs.Marks.{stores_byte, bank_of};
ghost use Rattle.rules.specs.After.{one_more, startup_after, precharged, auto_closed, activated, bank_after, commanded};

use bursts::{Beat, Bus};
use bus::databus;
use layout::{Command, Record};
use rules::timing::Timing;
use rules::{Bank, Refreshes, Register, StartUp, Status, closing};
use std::array;
use units::{BANKS, Clock, Ps, time};

// One refresh more, on clock n.
fn one_more(n: Clock, f: Refreshes) -> Refreshes
    ensures { result ≡ one_more n f }
{
    match f {
        Refreshes::Zero => Refreshes::One(n),
        Refreshes::One(_) => Refreshes::Two(n),
        Refreshes::Two(_) => Refreshes::Two(n),
    }
}

// A PRECHARGE ALL, an AUTO REFRESH and a LOAD MODE each leave their mark.
#[tactic(auto, unfolding(rules::specs::After::startup_after))]
pub fn startup_after(k: Command, r: Record, n: Clock, u: StartUp) -> StartUp
    ensures { result ≡ startup_after k r n u }
{
    match k {
        Command::Precharge if layout::a10(r.addr) => StartUp {
            allclosed: Some(n),
            ..u
        },
        Command::Refresh => StartUp {
            refreshes: one_more(n, u.refreshes),
            ..u
        },
        Command::LoadMode => StartUp {
            register: Some(Register {
                word: r.addr,
                clock: n,
            }),
            ..u
        },
        _ => u,
    }
}

// "It closes now. A closed bank .. keeps that closing time"; the first PRECHARGE ALL closes whatever it finds.
fn precharged(again: bool, moment: Ps, x: Status) -> Status
    ensures { result ≡ precharged again moment x }
{
    match x {
        Status::Closed { .. } if again => x,
        _ => Status::Closed { closing: moment },
    }
}

// "Auto precharge counts the bank closed at once."
fn auto_closed(timing: Timing, end: Ps, x: Status) -> Status
    requires { FitStatus x }
    ensures { result ≡ auto_closed timing.table timing.period end x }
{
    match x {
        Status::Open { active, .. } => Status::Closed {
            closing: closing::closing_time(timing, active, end),
        },
        Status::NotStarted | Status::Closed { .. } => x,
    }
}

pub fn activated(row: u16, n: Clock) -> Bank
    ensures { result ≡ activated row n }
{
    Bank {
        status: Status::Open { row, active: n },
        active: Some(n),
        stored: None,
    }
}

// Bank i after the command.
#[tactic(auto, unfolding(rules::specs::After::bank_after))]
fn bank_after(
    k: Command,
    timing: Timing,
    end: Ps,
    again: bool,
    r: Record,
    n: Clock,
    moment: Ps,
    i: u8,
    b: Bank,
) -> Bank
    requires { FitBank b }
    ensures { result ≡ bank_after k timing.table timing.period end again r n moment i b }
{
    let own = i == r.ba;
    match k {
        Command::Active if own => activated(r.addr, n),
        Command::Precharge if layout::covers(r.addr, r.ba, i) => Bank {
            status: precharged(again, moment, b.status),
            ..b
        },
        _ if closing::asks_auto(k, r) && own => Bank {
            status: auto_closed(timing, end, b.status),
            ..b
        },
        _ => b,
    }
}

// Only ACTIVE, PRECHARGE, and a READ or WRITE with auto precharge touch a bank.
fn touches(k: Command, r: Record) -> bool
    ensures { result ≡ (is k Active || (asks_auto k r || is k Precharge)) }
{
    matches!(k, Command::Active | Command::Precharge) || closing::asks_auto(k, r)
}

// The banks after the command.
#[tactic(auto, using(crate::proofs::Leaves::untouched), unfolding(rules::specs::After::commanded))]
fn commanded(
    k: Command,
    timing: Timing,
    end: Ps,
    again: bool,
    r: Record,
    n: Clock,
    moment: Ps,
    all: [Bank; 4],
) -> [Bank; 4]
    requires { BanksFit all }
    ensures { result ≡ commanded k timing.table timing.period end again r n moment all }
{
    if !touches(k, r) {
        return all;
    }
    array::from_fn(|i| bank_after(k, timing, end, again, r, n, moment, i as u8, all[i]))
}

// The bus after the command, with the mode word and the open row that it finds.
pub fn bus_moved(k: Command, r: Record, n: Clock, startup: StartUp, own: Bank, bus: Bus) -> Bus
    ensures { result ≡ bus_after k r n (word_in startup.register) (row_of own.status) bus }
{
    databus::bus_after(k, r, n, startup.word(), own.status.row(), bus)
}

// The status of the record's own bank after a READ or WRITE with auto precharge.
pub fn self_closed(k: Command, timing: Timing, startup: StartUp, n: Clock, x: Status) -> Status
    requires { FitStatus x × (n.0 ≤ clock_max) }
    ensures { result ≡ auto_closed timing.table timing.period (burst_end k timing.table timing.period (word_in startup.register) n) x }
{
    let end = closing::burst_end(k, timing, startup.word(), n);
    auto_closed(timing, end, x)
}

// The four banks after the command.
pub fn banks_moved(
    k: Command,
    timing: Timing,
    startup: StartUp,
    r: Record,
    n: Clock,
    all: [Bank; 4],
) -> [Bank; 4]
    requires { BanksFit all × (n.0 ≤ clock_max) }
    ensures { result ≡ commanded k timing.table timing.period
        (burst_end k timing.table timing.period (word_in startup.register) n) (begun startup) r n (at timing.period n) all }
{
    let end = closing::burst_end(k, timing, startup.word(), n);
    commanded(
        k,
        timing,
        end,
        startup.begun(),
        r,
        n,
        time::at(timing.period, n),
        all,
    )
}

// The beat stores a byte in a bank of the module.
#[tactic(auto, unfolding(crate::specs::Marks::stores_byte))]
pub fn stores(w: Beat) -> bool
    ensures { result ≡ stores_byte w }
{
    match w {
        Beat::Stores(c) => c.lanes != 0 && c.bank < BANKS,
        _ => false,
    }
}

// The bank of a WRITE's beat, whether it stores a byte or not.
#[tactic(auto, unfolding(crate::specs::Marks::bank_of))]
pub fn bank_of(w: Beat) -> u8
    ensures { result ≡ bank_of w }
{
    match w {
        Beat::Stores(c) => c.bank,
        _ => 0,
    }
}

// The bank of the module in which the beat stores a byte.
pub fn stored_in(w: Beat) -> Option<u8>
    ensures { result ≡ cond (stores_byte w) (Some (bank_of w)) None }
{
    if stores(w) { Some(bank_of(w)) } else { None }
}
