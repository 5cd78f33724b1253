// The numbers of a state. One that its kind does not use is 0, so that a state is written in one way.
ghost use Rattle.std.specs.Prelude.{◌≡◌, ◌+◌, ◌*◌, ◌≤◌, length, set};
ghost use Rattle.std.proofs.lemmas.List.Edits.{sets};
ghost use Rattle.words.specs.Words.{state_words, event_numbers, refreshes_numbers, register_numbers, status_numbers, startup_numbers, head_numbers, burst_numbers, bursts_numbers, bus_numbers, bank_numbers, banks_numbers};

use bursts::{Burst, Bus};
use rules::{Bank, Core, Refreshes, Register, StartUp, Status};
use units::Clock;

// Its kind and its clock.
fn event_numbers(e: Option<Clock>) -> [u64; 2]
    ensures { result ≡ event_numbers e }
{
    match e {
        None => [0, 0],
        Some(n) => [1, n.0],
    }
}

// How many they are, and the clock of the last.
fn refreshes_numbers(x: Refreshes) -> [u64; 2]
    ensures { result ≡ refreshes_numbers x }
{
    match x {
        Refreshes::Zero => [0, 0],
        Refreshes::One(n) => [1, n.0],
        Refreshes::Two(n) => [2, n.0],
    }
}

// Its kind, the mode word, and the clock of the LOAD MODE.
fn register_numbers(x: Option<Register>) -> [u64; 3]
    ensures { result ≡ register_numbers x }
{
    match x {
        None => [0, 0, 0],
        Some(r) => [1, u64::from(r.word), r.clock.0],
    }
}

// Its kind, the row and the ACTIVE clock of an open bank, the closing time of a closed one.
fn status_numbers(x: Status) -> [u64; 4]
    ensures { result ≡ status_numbers x }
{
    match x {
        Status::NotStarted => [0, 0, 0, 0],
        Status::Open { row, active } => [1, u64::from(row), active.0, 0],
        Status::Closed { closing } => [2, 0, 0, closing.0],
    }
}

// The steps of start-up in seven numbers.
fn startup_numbers(u: StartUp) -> [u64; 7]
    ensures { result ≡ startup_numbers u }
{
    let [closed_kind, closed] = event_numbers(u.allclosed);
    let [refreshes_kind, refresh] = refreshes_numbers(u.refreshes);
    let [register_kind, word, loaded] = register_numbers(u.register);
    [
        closed_kind,
        closed,
        refreshes_kind,
        refresh,
        register_kind,
        word,
        loaded,
    ]
}

// A burst's nine numbers.
fn burst_numbers(b: Burst) -> [u64; 9]
    ensures { result ≡ burst_numbers b }
{
    let [cut_kind, cut] = event_numbers(b.cut);
    [
        u64::from(b.live),
        u64::from(b.auto),
        u64::from(b.bank),
        u64::from(b.row),
        u64::from(b.column),
        b.start.0,
        cut_kind,
        cut,
        u64::from(b.word),
    ]
}

// A bank's eight numbers.
fn bank_numbers(b: Bank) -> [u64; 8]
    ensures { result ≡ bank_numbers b }
{
    let [kind, row, opened, closing] = status_numbers(b.status);
    let [active_kind, active] = event_numbers(b.active);
    let [stored_kind, stored] = event_numbers(b.stored);
    [
        kind,
        row,
        opened,
        closing,
        active_kind,
        active,
        stored_kind,
        stored,
    ]
}

// This number at place `at`, where the slice has it.
fn store(words: &mut [u64], at: usize, n: u64)
    ensures { words.new ≡ set words.old at n }
{
    if at < words.len() {
        words[at] = n;
    }
}

// These numbers from place `at` on, where the slice has their places.
fn store_all(words: &mut [u64], at: usize, numbers: &[u64])
    requires { at + length numbers.now ≤ state_words }
    ensures { words.new ≡ sets words.old at numbers.now }
{
    for (i, n) in numbers.iter().enumerate() {
        store(words, at + i, *n);
    }
}

// The fourteen numbers before the bus.
pub fn put_head(words: &mut [u64], c: Core)
    ensures { words.new ≡ sets words.old 0 (head_numbers c) }
{
    let [kind, last] = event_numbers(c.last);
    let first = [
        c.period.0,
        u64::from(c.grade),
        u64::from(c.bank),
        u64::from(c.row),
        c.number,
        kind,
        last,
    ];
    store_all(words, 0, &first);
    store_all(words, 7, &startup_numbers(c.startup));
}

// The bursts one after another, the first from place `at` on.
fn put_bursts(words: &mut [u64], at: usize, bursts: &[Burst])
    requires { at + 9 * length bursts.now ≤ state_words }
    ensures { words.new ≡ sets words.old at (bursts_numbers bursts.now) }
{
    for (i, burst) in bursts.iter().enumerate() {
        store_all(words, at + 9 * i, &burst_numbers(*burst));
    }
}

// The WRITE, the READs and the masks.
#[tactic(auto, using(crate::proofs::Stores::bus_stored))]
pub fn put_bus(words: &mut [u64], bus: Bus)
    ensures { words.new ≡ sets words.old 14 (bus_numbers bus) }
{
    put_bursts(words, 14, &[bus.write]);
    put_bursts(words, 23, &bus.reads);
    let m = bus.masks;
    let masks = [u64::from(m.first), u64::from(m.second), u64::from(m.third)];
    store_all(words, 59, &masks);
}

// The four banks one after another.
pub fn put_banks(words: &mut [u64], banks: [Bank; 4])
    ensures { words.new ≡ sets words.old 62 (banks_numbers banks) }
{
    for (i, bank) in banks.iter().enumerate() {
        store_all(words, 62 + 8 * i, &bank_numbers(*bank));
    }
}
