// Reads a trace on standard input, as `judge` does, and says the first illegal record in words: its command and clock, the rule that it
// breaks, and the times involved.
#![tactic(auto)]

ghost use Rattle.std.specs.Prelude.{◌≡◌, ◌≤◌, [], length, replicate, IfOk};
ghost use Rattle.units.specs.Module.{page_bytes};
ghost use Rattle.hawsehole.specs.Numbers.{whole_call};

use crate::saying::Fault;
use crate::walking::Halt;
use rules::{Ran, Setup};
use speed::SpeedTable;
use std::io;
use std::io::Read;
use units::{Module, PAGE_BYTES};

mod broken;
mod events;
mod figures;
mod saying;
mod times;
mod walking;

// The longest trace: a header and 4,095 records.
const TRACE_MAX: usize = 65_536;

// What the whole-trace judge says, from a page of zeros and with no beats.
fn verdict_of(setup: Setup, trace: &[u8]) -> Ran
    ensures { result ≡ (whole_call setup trace.now (replicate (page_bytes Module.Bench) 0) []).ran }
{
    let mut page = [0u8; PAGE_BYTES];
    hawsehole::judge(setup, trace, &mut page, &mut [])
}

// All that is said of an input. "Longer input prints `TOO LONG` alone."
fn explain(rt: &impl Print, input: &[u8]) -> io::Result<()> {
    if TRACE_MAX < input.len() {
        return println!(rt; "TOO LONG");
    }
    let bytes = input.len();
    let Some(h) = layout::read_header(input) else {
        return rt.print(Fault::no_header(bytes));
    };
    let table = SpeedTable::of_grade(h.grade);
    let setup = Setup { table };
    let ran = verdict_of(setup, input);
    let Err(refusal) = ran.verdict else {
        return println!(rt; "Clean: {} records, none illegal.", ran.reported);
    };
    if let Some(fault) = Fault::of(refusal, h, bytes) {
        return rt.print(fault);
    }
    match Halt::of(ran, h, setup, input) {
        Some(halt) => rt.print(halt),
        None => Ok(()), // never: the record that is refused is there
    }
}

fn main(rt: HostRuntime) -> io::Result<()> {
    // one byte more than the longest trace, to tell a longer one
    let mut input = [0u8; TRACE_MAX + 1];
    let n = reading::read_full(&mut rt.stdin(), &mut input)?;
    explain(&rt, &input[..n])
}
