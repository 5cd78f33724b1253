// For the live monitor, which is C: one record asked, or taken, from a state that is lent as words.
ghost use Rattle.std.specs.Prelude.{◌≡◌, cond, eqb, ltb};
ghost use Rattle.rules.specs.Numbers.{first_broken, number_of};
ghost use Rattle.hawsehole.specs.Numbers.{with_table};
ghost use Rattle.hawsehole.specs.Monitor.{place_rules, grade_rules, start_rules, started, start_call, ask_words, monitored, last_clock, take_words};

use crate::word_of;
use device::{Device, reporting};
use rules::{Refusal, Setup};
use speed::SpeedTable;
use units::{BANKS, Clock, Module, Ps};
use words::WORDS;

// 25, of the words and the watched bank and row.
#[tactic(auto, unfolding(crate::specs::Monitor::place_rules))]
fn place_verdict(words: usize, m: Module, bank: u64, row: u64) -> Result<(), Refusal>
    ensures { result ≡ first_broken (place_rules words m bank row) }
{
    if words != WORDS || BANKS as u64 <= bank || m.rows() as u64 <= row {
        return Err(Refusal::UnfitState);
    }
    Ok(())
}

// 4 and 25.
#[tactic(auto, unfolding(crate::specs::Monitor::grade_rules))]
fn grade_verdict(words: usize, grade: u8, bank: u64, row: u64) -> Result<(), Refusal>
    ensures { result ≡ first_broken (grade_rules words grade bank row) }
{
    if !rules::grade_known(grade) {
        return Err(Refusal::WrongGrade);
    }
    place_verdict(words, Module::of_grade(grade), bank, row)
}

// 3, 4 and 25.
#[tactic(auto, unfolding(crate::specs::Monitor::start_rules))]
fn start_verdict(words: usize, period: u64, grade: u64, bank: u64, row: u64) -> Result<(), Refusal>
    ensures { result ≡ first_broken (start_rules words period grade bank row) }
{
    if !rules::period_fits(Ps(period)) {
        return Err(Refusal::WrongPeriod);
    }
    if 256 <= grade {
        return Err(Refusal::WrongGrade);
    }
    grade_verdict(words, grade as u8, bank, row)
}

// The state before the first record, as words.
#[tactic(auto, unfolding(crate::specs::Monitor::start_call))]
pub fn start(state: &mut [u64], period: u64, grade: u64, bank: u64, row: u64) -> u64
    ensures { started result state.new ≡ start_call state.old period grade bank row }
{
    match start_verdict(state.len(), period, grade, bank, row) {
        Err(why) => why.number() as u64,
        Ok(()) => {
            let d = Device::start(Ps(period), grade as u8, bank as u8, row as u16);
            words::put(d.0, state);
            0
        }
    }
}

// The answer where the words hold no state, by what asking says of the one that they are read as: 3, 4, 6 and 7 come before 25, and
// all else after it.
fn unheld(v: Result<(), Refusal>) -> u64
    ensures { result ≡ cond (eqb (number_of v) 0) 25 (cond (ltb (number_of v) 8) (number_of v) 25) }
{
    match v {
        Err(why) if why.number() < 8 => why.number() as u64,
        _ => 25,
    }
}

// May this record stand next? What is tried before the record is looked at stands in one place, behind `Device::ask`.
#[tactic(auto, unfolding(crate::specs::Monitor::ask_words))]
fn ask_of(u: Setup, state: &[u64], bytes: &[u8], page: &[u8]) -> u64
    ensures { result ≡ ask_words u state.now bytes.now page.now }
{
    if bytes.len() != 16 {
        return 1;
    }
    if state.len() != WORDS {
        return 25;
    }
    let d = Device(words::state(state));
    let a = d.ask(u, bytes, page);
    if words::holds(state) {
        return word_of(a.verdict, a.reported);
    }
    unheld(a.verdict)
}

// The clock of the last record taken.
fn last_clock(last: Option<Clock>) -> Clock
    ensures { result ≡ last_clock last }
{
    last.unwrap_or(Clock(0))
}

// The same, under this speed table. Nothing is changed.
pub fn ask(table: SpeedTable, state: &[u64], bytes: &[u8], page: &[u8]) -> u64
    ensures { result ≡ ask_words (with_table table) state.now bytes.now page.now }
{
    ask_of(Setup { table }, state, bytes, page)
}

// Asks, and takes a record that may stand: its words, and the beat on its clock.
#[tactic(auto, unfolding(crate::specs::Monitor::take_words))]
pub fn take(
    table: SpeedTable,
    state: &mut [u64],
    bytes: &[u8],
    page: &mut [u8],
    beat: &mut [u64],
) -> u64
    ensures { monitored result state.new page.new beat.new ≡ take_words (with_table table) state.old bytes.now page.old beat.old }
{
    let u = Setup { table };
    let word = ask_of(u, state, bytes, page);
    if word % 256 != 0 {
        return word;
    }
    let d = Device(words::state(state));
    let took = d.take(u, bytes, page);
    let s = took.next.0;
    reporting::put(beat, 0, reporting::beat_word(took.beat));
    reporting::put(beat, 1, last_clock(s.core.last).0);
    words::put(s, state);
    word
}
