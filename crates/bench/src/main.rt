// Runs the bench cases on standard input through the whole-trace judge, each from a page of zeros, and prints a line for each:
// its number, the verdict's number, record and interval, and each reported beat as R or W, clock, column and lanes.
// A case is a byte with its number, a byte with its count of records, the thirteen numbers of its table in four bytes each, and
// its trace; host/bench_cases.py writes them.
#![tactic(auto)]

ghost use Rattle.std.specs.Prelude.{◌≤◌, ◌<◌, length, IfOk, IfSome};

use rules::Setup;
use speed::SpeedTable;
use std::io::Read;
use std::{fmt, io};
use units::PAGE_BYTES;

// Two words for each of the first 64 records of a case.
const WORDS: usize = 128;

// A case: its number, its table, its trace.
#[derive(Clone, Copy)]
struct Case<'a> {
    number: u8,
    setup: Setup,
    trace: &'a [u8],
}

// The table of thirteen numbers, "most significant bit first".
fn table(bytes: &[u8; 52]) -> SpeedTable {
    let mut n = [0u64; 13];
    let (words, _) = bytes.as_chunks::<4>();
    for (number, &word) in n.iter_mut().zip(words.iter()) {
        *number = u64::from(u32::from_be_bytes(word));
    }
    SpeedTable::of_numbers(
        n[0], n[1], n[2], n[3], n[4], n[5], n[6], n[7], n[8], n[9], n[10], n[11], n[12],
    )
}

// The first case of these bytes, and the bytes after it; none where they hold no whole case.
fn first_case(cases: &[u8]) -> Option<(Case<'_>, &[u8])>
    ensures { IfSome result (λ p. length p.1.now < length cases.now) }
{
    let (&[number, count], cases) = cases.split_first_chunk::<2>()?;
    let (numbers, cases) = cases.split_first_chunk::<52>()?;
    let (trace, rest) = cases.split_at_checked(16 + 16 * usize::from(count))?;
    let setup = Setup {
        table: table(numbers),
    };
    let case = Case {
        number,
        setup,
        trace,
    };
    Some((case, rest))
}

// A beat, as it is printed.
#[derive(Clone, Copy)]
struct Beat {
    letter: char,
    clock: u64,
    column: u64,
    lanes: u64,
}

impl Beat {
    // From the two words that the judge writes for a record; none where they hold no beat.
    fn of([word, clock]: [u64; 2]) -> Option<Beat> {
        let letter = match word / 281_474_976_710_656 % 256 {
            0 => return None,
            1 => 'R',
            _ => 'W',
        };
        let column = word / 256 % 65_536;
        let lanes = word % 256;
        Some(Beat {
            letter,
            clock,
            column,
            lanes,
        })
    }
}

// ` R 13363 13 ff`
impl fmt::Display for Beat {
    fn fmt<W: fmt::Write>(&self, f: &mut fmt::Formatter<W>) -> fmt::Result {
        let Beat {
            letter,
            clock,
            column,
            lanes,
        } = self;
        write!(f, " {letter} {clock} {column} {lanes:02x}")
    }
}

// A case's line: its number, then what the answer's word says, then its beats.
fn run_case(rt: &impl Print, case: Case<'_>) -> io::Result<()> {
    let mut page = [0u8; PAGE_BYTES];
    let mut beats = [0u64; WORDS];
    let ran = hawsehole::judge(case.setup, case.trace, &mut page, &mut beats);
    let answer = hawsehole::answer_word(ran);
    let number = answer % 256;
    let record = answer / 65_536;
    let interval = answer / 256 % 256;
    print!(rt; "{} {number} {record} {interval}", case.number)?;
    let (beats, _) = beats.as_chunks::<2>();
    for &words in beats {
        if let Some(beat) = Beat::of(words) {
            rt.print(beat)?;
        }
    }
    println!(rt)
}

fn all_cases(rt: &impl Print, cases: &[u8]) -> io::Result<()> {
    let mut rest = cases;
    while let Some((case, after)) = first_case(rest) {
        run_case(rt, case)?;
        rest = after;
    }
    Ok(())
}

fn main(rt: HostRuntime) -> io::Result<()> {
    let mut buf = [0u8; 65_536];
    let n = reading::read_full(&mut rt.stdin(), &mut buf)?;
    all_cases(&rt, &buf[..n])
}
