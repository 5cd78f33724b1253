// The calls for C: `hawsehole`'s calls under a speed table of thirteen numbers in document 01's order. A slice is passed as a pointer
// and a length; include/hawsehole.h declares them. The numbers stay apart here, and here alone: C links to these signatures.
#![tactic(auto)]

ghost use Rattle.std.specs.Prelude.{◌≡◌};
ghost use Rattle.speed.specs.Table.{table};
ghost use Rattle.hawsehole.specs.Numbers.{with_table, answered, judge_beats, alone, judge_alone};
ghost use Rattle.hawsehole.specs.Monitor.{started, start_call, ask_words, monitored, take_words};

use hawsehole::monitor;
use speed::SpeedTable;

// A whole trace, and two words for each record.
#[unsafe(no_mangle)]
pub extern "C" fn hawsehole_judge_beats(
    trace: &[u8],
    page: &mut [u8],
    beats: &mut [u64],
    t1: u64,
    t2: u64,
    t3: u64,
    t4: u64,
    t5: u64,
    t6: u64,
    t7: u64,
    t8: u64,
    t9: u64,
    t10: u64,
    t11: u64,
    t12: u64,
    t13: u64,
) -> u64
    ensures { answered result page.new beats.new ≡ judge_beats (table t1 t2 t3 t4 t5 t6 t7 t8 t9 t10 t11 t12 t13) trace.now page.old beats.old }
{
    let table = SpeedTable::of_numbers(t1, t2, t3, t4, t5, t6, t7, t8, t9, t10, t11, t12, t13);
    hawsehole::judge_beats(table, trace, page, beats)
}

// A whole trace, with no beats.
#[unsafe(no_mangle)]
pub extern "C" fn hawsehole_judge(
    trace: &[u8],
    page: &mut [u8],
    t1: u64,
    t2: u64,
    t3: u64,
    t4: u64,
    t5: u64,
    t6: u64,
    t7: u64,
    t8: u64,
    t9: u64,
    t10: u64,
    t11: u64,
    t12: u64,
    t13: u64,
) -> u64
    ensures { alone result page.new ≡ judge_alone (table t1 t2 t3 t4 t5 t6 t7 t8 t9 t10 t11 t12 t13) trace.now page.old }
{
    let table = SpeedTable::of_numbers(t1, t2, t3, t4, t5, t6, t7, t8, t9, t10, t11, t12, t13);
    hawsehole::judge_alone(table, trace, page)
}

// The state before the first record.
#[unsafe(no_mangle)]
pub extern "C" fn hawsehole_start(
    state: &mut [u64],
    period: u64,
    grade: u64,
    bank: u64,
    row: u64,
) -> u64
    ensures { started result state.new ≡ start_call state.old period grade bank row }
{
    monitor::start(state, period, grade, bank, row)
}

// May this record stand next?
#[unsafe(no_mangle)]
pub extern "C" fn hawsehole_ask(
    state: &[u64],
    bytes: &[u8],
    page: &[u8],
    t1: u64,
    t2: u64,
    t3: u64,
    t4: u64,
    t5: u64,
    t6: u64,
    t7: u64,
    t8: u64,
    t9: u64,
    t10: u64,
    t11: u64,
    t12: u64,
    t13: u64,
) -> u64
    ensures { result ≡ ask_words (with_table (table t1 t2 t3 t4 t5 t6 t7 t8 t9 t10 t11 t12 t13)) state.now bytes.now page.now }
{
    let table = SpeedTable::of_numbers(t1, t2, t3, t4, t5, t6, t7, t8, t9, t10, t11, t12, t13);
    monitor::ask(table, state, bytes, page)
}

// The same, and takes it.
#[unsafe(no_mangle)]
pub extern "C" fn hawsehole_take(
    state: &mut [u64],
    bytes: &[u8],
    page: &mut [u8],
    beat: &mut [u64],
    t1: u64,
    t2: u64,
    t3: u64,
    t4: u64,
    t5: u64,
    t6: u64,
    t7: u64,
    t8: u64,
    t9: u64,
    t10: u64,
    t11: u64,
    t12: u64,
    t13: u64,
) -> u64
    ensures { monitored result state.new page.new beat.new ≡ take_words (with_table (table t1 t2 t3 t4 t5 t6 t7 t8 t9 t10 t11 t12 t13)) state.old bytes.now page.old beat.old }
{
    let table = SpeedTable::of_numbers(t1, t2, t3, t4, t5, t6, t7, t8, t9, t10, t11, t12, t13);
    monitor::take(table, state, bytes, page, beat)
}
