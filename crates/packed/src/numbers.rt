// The four banks as numbers in one array, eight to a bank, for the loop over records: the array is lent to what asks and changes
// them, where banks that are handed on would be copied for each record. Each number is of one kind, a clock or a time, a row or which
// variant it is, and only this file reads and writes them. It is an array, and no type that knows its banks: `inplace::ask` and `banks`
// promise their answer for every 32 numbers.
ghost use Rattle.std.specs.Prelude.{◌≡◌, true, ◌%◌, ◌*◌, set};
ghost use Rattle.rules.specs.Banks.{bank_at};
ghost use Rattle.rules.specs.After.{with_status, marked};
ghost use Rattle.packed.specs.Packed.{event_in, status_in, bank_in, banks_in, Held, Packed};
ghost use Rattle.words.specs.Words.{event_kind, event_number, status_kind, status_clock, status_time};

use rules::{Bank, Status};
use std::array;
use units::{Clock, Ps};

#[tactic(auto, unfolding(crate::specs::Packed::event_in))]
fn event_in(kind: u64, n: u64) -> Option<Clock>
    ensures { result ≡ event_in kind n }
{
    match kind {
        0 => None,
        _ => Some(Clock(n)),
    }
}

#[tactic(auto, unfolding(crate::specs::Packed::status_in))]
fn status_in(kind: u64, row: u64, n: u64, t: u64) -> Status
    ensures { result ≡ status_in kind row n t }
{
    match kind {
        0 => Status::NotStarted,
        1 => Status::Open {
            row: (row % 65_536) as u16,
            active: Clock(n),
        },
        _ => Status::Closed { closing: Ps(t) },
    }
}

// The number from which a bank's numbers stand.
fn place(i: u8) -> usize
    ensures { result ≡ 8 * (i % 4) }
{
    8 * ((i % 4) as usize)
}

// The status of bank i.
#[tactic(auto, unfolding(crate::specs::Packed::bank_in))]
pub fn status(held: &[u64; 32], i: u8) -> Status
    ensures { result ≡ (bank_in held.now (i % 4)).status }
{
    let at = place(i);
    status_in(held[at], held[at + 1], held[at + 2], held[at + 3])
}

// Bank i.
#[tactic(auto, unfolding(crate::specs::Packed::bank_in))]
pub fn bank(held: &[u64; 32], i: u8) -> Bank
    ensures { result ≡ bank_in held.now (i % 4) }
{
    let at = place(i);
    let status = status_in(held[at], held[at + 1], held[at + 2], held[at + 3]);
    let active = event_in(held[at + 4], held[at + 5]);
    let stored = event_in(held[at + 6], held[at + 7]);
    Bank {
        status,
        active,
        stored,
    }
}

pub fn banks(held: &[u64; 32]) -> [Bank; 4]
    ensures { result ≡ banks_in held.now }
{
    array::from_fn(|i| bank(held, i as u8))
}

fn event_kind(e: Option<Clock>) -> u64
    ensures { result ≡ event_kind e }
{
    match e {
        None => 0,
        Some(_) => 1,
    }
}

fn event_number(e: Option<Clock>) -> u64
    ensures { result ≡ event_number e }
{
    match e {
        None => 0,
        Some(n) => n.0,
    }
}

fn status_kind(x: Status) -> u64
    ensures { result ≡ status_kind x }
{
    match x {
        Status::NotStarted => 0,
        Status::Open { .. } => 1,
        Status::Closed { .. } => 2,
    }
}

// The clock of the ACTIVE of an open bank.
fn status_clock(x: Status) -> u64
    ensures { result ≡ status_clock x }
{
    match x {
        Status::Open { active, .. } => active.0,
        Status::NotStarted | Status::Closed { .. } => 0,
    }
}

// The closing time of a closed bank.
fn status_time(x: Status) -> u64
    ensures { result ≡ status_time x }
{
    match x {
        Status::Closed { closing } => closing.0,
        Status::NotStarted | Status::Open { .. } => 0,
    }
}

// Bank i with this status.
pub fn put_status(held: &mut [u64; 32], i: u8, x: Status)
    requires { Packed held.old }
    ensures { Held held.new (set (banks_in held.old) (i % 4) (with_status x (bank_at (banks_in held.old) (i % 4)))) }
{
    let at = place(i);
    held[at] = status_kind(x);
    held[at + 1] = x.row() as u64;
    held[at + 2] = status_clock(x);
    held[at + 3] = status_time(x);
}

// A byte was stored in bank i on clock n.
pub fn put_stored(held: &mut [u64; 32], i: u8, n: Clock)
    requires { Packed held.old }
    ensures { Held held.new (set (banks_in held.old) (i % 4) (marked true n (bank_at (banks_in held.old) (i % 4)))) }
{
    let at = place(i);
    held[at + 6] = 1;
    held[at + 7] = n.0;
}

// This bank as bank i.
pub fn put_bank(held: &mut [u64; 32], i: u8, b: Bank)
    requires { Packed held.old }
    ensures { Held held.new (set (banks_in held.old) (i % 4) b) }
{
    let at = place(i);
    held[at] = status_kind(b.status);
    held[at + 1] = b.status.row() as u64;
    held[at + 2] = status_clock(b.status);
    held[at + 3] = status_time(b.status);
    held[at + 4] = event_kind(b.active);
    held[at + 5] = event_number(b.active);
    held[at + 6] = event_kind(b.stored);
    held[at + 7] = event_number(b.stored);
}

pub fn put_banks(held: &mut [u64; 32], all: [Bank; 4])
    requires { Packed held.old }
    ensures { Held held.new all }
{
    let [a, b, c, d] = all;
    put_bank(held, 0, a);
    put_bank(held, 1, b);
    put_bank(held, 2, c);
    put_bank(held, 3, d);
}
