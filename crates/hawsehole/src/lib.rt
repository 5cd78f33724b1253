// The whole-trace judge.
#![tactic(auto)]

ghost use Rattle.std.specs.Prelude.{◌≡◌};
ghost use Rattle.rules.specs.Numbers.{first_broken, number_of, interval_of};
ghost use Rattle.rules.specs.Report.{left, ran};
ghost use Rattle.hawsehole.specs.Trace.{lent_rules, whole_rules};
ghost use Rattle.hawsehole.specs.Numbers.{whole_call, word_of, answer_word, answered, judge_beats, alone, judge_alone};

pub mod monitor;

use device::Device;
use layout::Header;
use rules::numbers::{interval_of, number_of};
use rules::{Ran, Refusal, Setup};
use speed::SpeedTable;
use units::{Module, Ps};

// 5, 6 and 7.
#[tactic(auto, unfolding(crate::specs::Trace::lent_rules))]
fn lent_verdict(u: Setup, h: Header, lent: usize) -> Result<(), Refusal>
    ensures { result ≡ first_broken (lent_rules u h lent) }
{
    if h.zeros != 0 {
        return Err(Refusal::HeaderZeros);
    }
    if !u.table.fits() {
        return Err(Refusal::WrongTable);
    }
    if lent != Module::of_grade(h.grade).page_bytes() {
        return Err(Refusal::WrongPage);
    }
    Ok(())
}

// 1 to 7, of a trace with this header.
#[tactic(auto, unfolding(crate::specs::Trace::whole_rules))]
pub fn whole_verdict(u: Setup, h: Header, bytes: usize, lent: usize) -> Result<(), Refusal>
    ensures { result ≡ first_broken (whole_rules u h bytes lent) }
{
    let count = h.count as usize;
    if bytes != 16 + 16 * count {
        return Err(Refusal::WrongLength);
    }
    if h.version != 1 {
        return Err(Refusal::WrongVersion);
    }
    if !rules::period_fits(Ps(h.period as u64)) {
        return Err(Refusal::WrongPeriod);
    }
    if !rules::grade_known(h.grade) {
        return Err(Refusal::WrongGrade);
    }
    lent_verdict(u, h, lent)
}

// "1 to 7 .. report record 0 and look at no record."
fn unread(why: Refusal) -> Ran
    ensures { result ≡ ran (Err why) 0 }
{
    Ran {
        verdict: Err(why),
        reported: 0,
    }
}

// A whole trace: 1 to 7, then its records in turn. The page holds the stores of the records taken, `beats` two words for each
// of them, where it has their place; a refusal by 1 to 7 leaves both as they were.
#[tactic(auto, unfolding(crate::specs::Numbers::whole_call))]
pub fn judge(u: Setup, trace: &[u8], page: &mut [u8], beats: &mut [u64]) -> Ran
    ensures { left result page.new beats.new ≡ whole_call u trace.now page.old beats.old }
{
    let Some(h) = layout::read_header(trace) else {
        return unread(Refusal::WrongLength);
    };
    match whole_verdict(u, h, trace.len(), page.len()) {
        Err(why) => unread(why),
        Ok(()) => {
            let start = Device::start(Ps(h.period as u64), h.grade, h.bank, h.row);
            start.records(u, &trace[16..], page, beats).ran
        }
    }
}

// An answer as one number: bits 0 to 7 the number, 8 to 15 the interval, 16 to 39 the record.
fn word_of(v: Result<(), Refusal>, reported: u64) -> u64
    ensures { result ≡ word_of (number_of v) (interval_of v) reported }
{
    let number = number_of(v);
    let interval = interval_of(v);
    number as u64 + interval as u64 * 256 + reported % 16_777_216 * 65_536
}

// The whole-trace judge's.
#[tactic(auto, unfolding(crate::specs::Numbers::answer_word))]
pub fn answer_word(r: Ran) -> u64
    ensures { result ≡ answer_word r }
{
    word_of(r.verdict, r.reported)
}

// The whole-trace judge with its answer as one number, under this speed table, as `hawsehole_c` lends it to C.
#[tactic(auto, unfolding(crate::specs::Numbers::judge_beats))]
pub fn judge_beats(table: SpeedTable, trace: &[u8], page: &mut [u8], beats: &mut [u64]) -> u64
    ensures { answered result page.new beats.new ≡ judge_beats table trace.now page.old beats.old }
{
    answer_word(judge(Setup { table }, trace, page, beats))
}

// The same, with no beats.
#[tactic(auto, unfolding(crate::specs::Numbers::judge_alone))]
pub fn judge_alone(table: SpeedTable, trace: &[u8], page: &mut [u8]) -> u64
    ensures { alone result page.new ≡ judge_alone table trace.now page.old }
{
    let mut none = [0u64; 1];
    judge_beats(table, trace, page, &mut none[0..0])
}
