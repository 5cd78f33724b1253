// Asking and taking with the banks as numbers in a lent array: what the loop over records does with each record's banks.
ghost use Rattle.std.specs.Prelude.{◌≡◌, ◌≤◌, ◌<◌, ◌%◌};
ghost use Rattle.units.specs.Time.{at};
ghost use Rattle.layout.specs.Commands.{command, executable};
ghost use Rattle.units.specs.Reach.{Reach, FitPeriod};
ghost use Rattle.rules.specs.Calls.{BanksFit, Call};
ghost use Rattle.rules.specs.Numbers.{first_broken, asked};
ghost use Rattle.rules.specs.Banks.{row_of, every, open_within};
ghost use Rattle.bursts.specs.Bus.{bus_after};
ghost use Rattle.rules.specs.Parts.{core_module, word_in};
ghost use Rattle.rules.specs.StartUp.{begun};
ghost use Rattle.rules.specs.Closing.{burst_end};
ghost use Rattle.rules.specs.Rules.{clock_max, command_rules, rules, found};
ghost use Rattle.rules.specs.After.{commanded, mark_banks};
ghost use Rattle.packed.specs.Packed.{bank_in, banks_in, Held, Packed};

use crate::numbers;
use asking::{commands, every};
use bursts::{Beat, Bus};
use layout::{Command, Record};
use rules::timing::Timing;
use rules::{Bank, Core, Refusal, StartUp, closing};
use speed::SpeedTable;
use taking::leaving;
use units::{Clock, Ps, time};

// These banks as numbers.
pub fn hold(banks: [Bank; 4]) -> [u64; 32]
    ensures { Held result banks }
{
    let mut held = [0u64; 32];
    numbers::put_banks(&mut held, banks);
    held
}

// The banks that are held.
pub fn banks(held: &[u64; 32]) -> [Bank; 4]
    ensures { result ≡ banks_in held.now }
{
    numbers::banks(held)
}

// Number 13, of the four.
#[tactic(auto, unfolding(crate::specs::Packed::bank_in))]
fn rows_within(period: Ps, max: Ps, moment: Ps, held: &[u64; 32]) -> bool
    requires { FitPeriod period × BanksFit (banks_in held.now) }
    ensures { result ≡ every (λ b. open_within period max moment b.status) (banks_in held.now) }
{
    (0..4).all(|i| every::open_within(period, max, moment, numbers::status(held, i)))
}

// "14 to 22 only on executable commands." Banks are read where a command asks for them: what is read before it is known which
// command runs, is read for each.
fn ask_command(
    t: SpeedTable,
    c: Core,
    held: &[u64; 32],
    r: Record,
    n: Clock,
    moment: Ps,
) -> Result<(), Refusal>
    requires { Call t c (banks_in held.now) r × (n.0 ≤ clock_max) }
    ensures { result ≡ first_broken (asked (executable (command r))
        (command_rules (command r) t (core_module c) c.period (found c (banks_in held.now) n) r n moment)) }
{
    let k = Command::from(r.code);
    match k {
        Command::LoadMode | Command::Refresh | Command::Precharge => {
            commands::ask_banks(k, t, c, numbers::banks(held), r, n, moment)
        }
        Command::Active => {
            let own = numbers::bank(held, r.ba);
            commands::ask_active(t, c, own, numbers::banks(held), r, n, moment)
        }
        Command::Write | Command::Read | Command::Terminate => {
            let own = numbers::bank(held, r.ba);
            commands::ask_burst(k, t, c, own, numbers::banks(held), r, n, moment)
        }
        Command::Nop | Command::Inhibit => Ok(()),
    }
}

// May record r stand on clock n?
#[tactic(auto, unfolding(rules::specs::Rules::rules))]
pub fn ask(t: SpeedTable, c: Core, held: &[u64; 32], r: Record, n: Clock) -> Result<(), Refusal>
    requires { Call t c (banks_in held.now) r × Reach c.period n }
    ensures { result ≡ first_broken (rules t (core_module c) c.period (found c (banks_in held.now) n) r n (at c.period n)) }
{
    let moment = time::at(c.period, n);
    every::ask_moment(t, c.period, c.startup.refreshes, r, n, moment)?;
    if !rows_within(c.period, t.trasmax, moment, held) {
        return Err(Refusal::LongRow);
    }
    ask_command(t, c, held, r, n, moment)
}

// The bus after the command, with the mode word and the open row that it finds.
pub fn move_bus(
    k: Command,
    r: Record,
    n: Clock,
    startup: StartUp,
    held: &[u64; 32],
    bus: Bus,
) -> Bus
    ensures { result ≡ bus_after k r n (word_in startup.register) (row_of (bank_in held.now (r.ba % 4)).status) bus }
{
    let own = numbers::bank(held, r.ba);
    leaving::bus_moved(k, r, n, startup, own, bus)
}

// The banks after the command. ACTIVE, and a READ or WRITE with auto precharge, change their own alone; LOAD MODE, AUTO REFRESH and
// PRECHARGE are seldom, and take the four.
#[tactic(auto, unfolding(rules::specs::After::commanded))]
pub fn move_banks(
    k: Command,
    timing: Timing,
    startup: StartUp,
    r: Record,
    n: Clock,
    held: &mut [u64; 32],
)
    requires { BanksFit (banks_in held.old) × (n.0 ≤ clock_max) × (r.ba < 4) × (Packed held.old) }
    ensures { Held held.new (commanded k timing.table timing.period (burst_end k timing.table timing.period (word_in startup.register) n)
        (begun startup) r n (at timing.period n) (banks_in held.old)) }
{
    if k == Command::Active {
        let opened = leaving::activated(r.addr, n);
        numbers::put_bank(held, r.ba, opened);
        return;
    }
    if closing::asks_auto(k, r) {
        let status = numbers::status(held, r.ba);
        let closed = leaving::self_closed(k, timing, startup, n, status);
        numbers::put_status(held, r.ba, closed);
        return;
    }
    if k.looks_at_all() {
        let all = numbers::banks(held);
        let moved = leaving::banks_moved(k, timing, startup, r, n, all);
        numbers::put_banks(held, moved);
    }
}

// A byte was stored on clock n, where the beat stores one.
#[tactic(auto, unfolding(rules::specs::After::mark_banks))]
pub fn mark_bank(beat: Beat, n: Clock, held: &mut [u64; 32])
    requires { Packed held.old }
    ensures { Held held.new (mark_banks beat n (banks_in held.old)) }
{
    if let Some(i) = leaving::stored_in(beat) {
        numbers::put_stored(held, i, n);
    }
}
