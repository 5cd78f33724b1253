// Reads a trace on standard input, judges it by its header's grade from a page of zeros, and prints each reported beat and the
// verdict.
#![tactic(auto)]

ghost use Rattle.std.specs.Prelude.{◌≡◌, ◌≤◌, ◌<◌, length, take, IfOk, OnOk, IfSome};
ghost use Rattle.std.specs.Io.KnownBytes.{Appends, Consumes, IsAtEnd};
ghost use Rattle.lines.specs.Place.{Holds};
ghost use Rattle.judge.specs.Output.{grade_of, printed, output};

use layout::Header;
use speed::SpeedTable;
use std::io;
use std::io::{Read, Write};
use units::PAGE_BYTES;

// The longest trace: a header and 4,095 records.
const TRACE_MAX: usize = 65_536;

// Two words for each record.
const WORDS: usize = 8_190;

// Room for the longest text, with every number at its longest: 110 bytes for each record and 71 for the last line.
const TEXT_MAX: usize = 450_560;

// "The program takes the header's grade"; with no header any grade does.
fn grade(h: Option<Header>) -> u8
    ensures { result ≡ grade_of h }
{
    h.map_or(0, |h| h.grade)
}

// All that is printed of a trace, at the start of a buffer that has room for the longest text.
fn print_trace(trace: &[u8], out: &mut [u8; TEXT_MAX]) -> usize
    ensures { Holds (printed trace.now) out.new result }
{
    let table = SpeedTable::of_grade(grade(layout::read_header(trace)));
    let mut page = [0; PAGE_BYTES];
    let mut words = [0; WORDS];
    let answer = hawsehole::judge_beats(table, trace, &mut page, &mut words);
    lines::report(&words, answer, out)
}

// All that is printed of an input.
#[tactic(auto, unfolding(crate::specs::Output::output))]
fn print_input(input: &[u8], out: &mut [u8; TEXT_MAX]) -> usize
    ensures { Holds (output input.now) out.new result }
{
    if TRACE_MAX < input.len() {
        return lines::put_text(b"TOO LONG\n", out, 0);
    }
    print_trace(input, out)
}

// Reads an input, and writes all that is printed of it; nothing where a read fails.
fn run<R: Read, W: Write>(input: &mut R, to: &mut W) -> io::Result<()>
    ensures { OnOk result (IfSome (R.remaining input.old) (λ bytes. Appends (W.contents to.old) (W.contents to.new) (output bytes))) }
{
    // one byte more than the longest trace, to tell a longer one
    let mut trace = [0; TRACE_MAX + 1];
    let n = reading::read_full(input, &mut trace)?;
    let mut out = [0; TEXT_MAX];
    let bytes = print_input(&trace[..n], &mut out);
    to.write_all(&out[..bytes])
}

fn main(rt: HostRuntime) -> io::Result<()> {
    run(&mut rt.stdin(), &mut rt.stdout())
}
