// How the words are read: each number by its place, 0 past the end of the slice. One that does not fit 8 bits, or 16, is read as the
// largest that does.
ghost use Rattle.std.specs.Prelude.{◌≡◌, ◌+◌, ◌≤◌};
ghost use Rattle.words.specs.Words.{state_words, number_in, event_in, refreshes_in, register_in, startup_in, burst_in, masks_in, bus_in, core_in, status_in, bank_in, banks_in};

use bursts::{Burst, Bus, Masks};
use rules::{Bank, Core, Refreshes, Register, StartUp, Status};
use std::array;
use units::{Clock, Ps};

// Number i, or 0 past the end.
fn number(words: &[u64], i: usize) -> u64
    ensures { result ≡ number_in words.now i }
{
    words.get(i).copied().unwrap_or(0)
}

// A kind and a clock, from place i on.
#[tactic(auto, unfolding(crate::specs::Words::event_in))]
fn event(words: &[u64], i: usize) -> Option<Clock>
    requires { i + 2 ≤ state_words }
    ensures { result ≡ event_in words.now i }
{
    let n = Clock(number(words, i + 1));
    match number(words, i) {
        0 => None,
        _ => Some(n),
    }
}

#[tactic(auto, unfolding(crate::specs::Words::refreshes_in))]
fn refreshes(words: &[u64]) -> Refreshes
    ensures { result ≡ refreshes_in words.now }
{
    let n = Clock(number(words, 10));
    match number(words, 9) {
        0 => Refreshes::Zero,
        1 => Refreshes::One(n),
        _ => Refreshes::Two(n),
    }
}

#[tactic(auto, unfolding(crate::specs::Words::register_in, crate::specs::Words::middle))]
fn register(words: &[u64]) -> Option<Register>
    ensures { result ≡ register_in words.now }
{
    let word = u16::try_from(number(words, 12)).unwrap_or(u16::MAX);
    let clock = Clock(number(words, 13));
    match number(words, 11) {
        0 => None,
        _ => Some(Register { word, clock }),
    }
}

#[tactic(auto, unfolding(crate::specs::Words::startup_in))]
fn startup(words: &[u64]) -> StartUp
    ensures { result ≡ startup_in words.now }
{
    StartUp {
        allclosed: event(words, 7),
        refreshes: refreshes(words),
        register: register(words),
    }
}

// The burst whose nine numbers begin at `at`.
#[tactic(auto, unfolding(crate::specs::Words::burst_in, crate::specs::Words::flag, crate::specs::Words::small, crate::specs::Words::middle))]
fn burst(words: &[u64], at: usize) -> Burst
    requires { at + 9 ≤ state_words }
    ensures { result ≡ burst_in words.now at }
{
    Burst {
        live: number(words, at) != 0,
        auto: number(words, at + 1) != 0,
        bank: u8::try_from(number(words, at + 2)).unwrap_or(u8::MAX),
        row: u16::try_from(number(words, at + 3)).unwrap_or(u16::MAX),
        column: u16::try_from(number(words, at + 4)).unwrap_or(u16::MAX),
        start: Clock(number(words, at + 5)),
        cut: event(words, at + 6),
        word: u16::try_from(number(words, at + 8)).unwrap_or(u16::MAX),
    }
}

#[tactic(auto, unfolding(crate::specs::Words::masks_in, crate::specs::Words::small))]
fn masks(words: &[u64]) -> Masks
    ensures { result ≡ masks_in words.now }
{
    Masks {
        first: u8::try_from(number(words, 59)).unwrap_or(u8::MAX),
        second: u8::try_from(number(words, 60)).unwrap_or(u8::MAX),
        third: u8::try_from(number(words, 61)).unwrap_or(u8::MAX),
    }
}

#[tactic(auto, unfolding(crate::specs::Words::bus_in))]
fn bus(words: &[u64]) -> Bus
    ensures { result ≡ bus_in words.now }
{
    Bus {
        write: burst(words, 14),
        reads: array::from_fn(|i| burst(words, 23 + 9 * i)),
        masks: masks(words),
    }
}

#[tactic(auto, unfolding(crate::specs::Words::core_in, crate::specs::Words::small, crate::specs::Words::middle))]
pub fn core(words: &[u64]) -> Core
    ensures { result ≡ core_in words.now }
{
    Core {
        period: Ps(number(words, 0)),
        grade: u8::try_from(number(words, 1)).unwrap_or(u8::MAX),
        bank: u8::try_from(number(words, 2)).unwrap_or(u8::MAX),
        row: u16::try_from(number(words, 3)).unwrap_or(u16::MAX),
        number: number(words, 4),
        last: event(words, 5),
        startup: startup(words),
        bus: bus(words),
    }
}

// A kind, the row and the ACTIVE clock of an open bank, and the closing time of a closed one, from place `at` on.
#[tactic(auto, unfolding(crate::specs::Words::status_in, crate::specs::Words::middle))]
fn status(words: &[u64], at: usize) -> Status
    requires { at + 4 ≤ state_words }
    ensures { result ≡ status_in words.now at }
{
    let row = u16::try_from(number(words, at + 1)).unwrap_or(u16::MAX);
    let active = Clock(number(words, at + 2));
    let closing = Ps(number(words, at + 3));
    match number(words, at) {
        0 => Status::NotStarted,
        1 => Status::Open { row, active },
        _ => Status::Closed { closing },
    }
}

// The bank whose eight numbers begin at `at`.
#[tactic(auto, unfolding(crate::specs::Words::bank_in))]
fn bank(words: &[u64], at: usize) -> Bank
    requires { at + 8 ≤ state_words }
    ensures { result ≡ bank_in words.now at }
{
    Bank {
        status: status(words, at),
        active: event(words, at + 4),
        stored: event(words, at + 6),
    }
}

pub fn banks(words: &[u64]) -> [Bank; 4]
    ensures { result ≡ banks_in words.now }
{
    array::from_fn(|i| bank(words, 62 + 8 * i))
}
