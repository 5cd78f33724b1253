// The mode word of document 01, decoded, and the order of columns inside a burst.
#![tactic(auto)]

ghost use Rattle.std.specs.Prelude.{◌%◌, ◌≡◌};
ghost use Rattle.mode.specs.Word.{full_page, length_of, interleaved, latency, single, legal, decoded, write_length, write_endless};
ghost use Rattle.mode.specs.Order.{in_block, beat_column};

use units::{COLUMNS, Module};

// What a mode word that is not reserved says.
#[derive(Clone, Copy)]
pub struct Mode {
    pub length: u16,
    pub fullpage: bool,
    pub interleaved: bool,
    pub latency: u8,
    pub single: bool,
}

// M2 to M0: "7 means full page".
pub fn full_page(w: u16) -> bool
    ensures { result ≡ full_page w }
{
    w % 8 == 7
}

// M2 to M0: "0, 1, 2, 3 mean 1, 2, 4, 8"; in full page, the row's columns. A reserved length is read like full page. By a shift:
// a table is looked up for each burst on each clock.
#[tactic(auto, unfolding(crate::specs::Word::length_of))]
pub fn length_of(w: u16) -> u16
    ensures { result ≡ length_of w }
{
    let k = w % 8;
    if k < 4 { 1 << k } else { COLUMNS }
}

// M3.
pub fn interleaved(w: u16) -> bool
    ensures { result ≡ interleaved w }
{
    w / 8 % 2 == 1
}

// M6 to M4: the CAS latency.
pub fn latency(w: u16) -> u8
    ensures { result ≡ latency w }
{
    (w / 16 % 8) as u8
}

// "M9 = 1 makes writes single."
pub fn single(w: u16) -> bool
    ensures { result ≡ single w }
{
    w / 512 % 2 == 1
}

// A word that is not reserved: a length of 003's figure 5, full page where the module has it and with M3 = 0 only; CL 2 or 3
// (table 7); M7, M8 and M10 to M12 zero.
pub fn legal(m: Module, w: u16) -> bool
    ensures { result ≡ legal m w }
{
    (w % 8 < 4 || m.has_full_page() && full_page(w) && !interleaved(w))
        && matches!(latency(w), 2 | 3)
        && w / 128 % 4 == 0
        && w / 1_024 == 0
}

// What a LOAD MODE's word says: a mode, or reserved, which is number 17.
pub fn decode(m: Module, w: u16) -> Option<Mode>
    ensures { result ≡ decoded m w }
{
    if legal(m, w) {
        Some(Mode {
            length: length_of(w),
            fullpage: full_page(w),
            interleaved: interleaved(w),
            latency: latency(w),
            single: single(w),
        })
    } else {
        None
    }
}

// How long a WRITE's burst is: with M9 = 1 "write accesses are single-location".
pub fn write_length(w: u16) -> u16
    ensures { result ≡ write_length w }
{
    if single(w) { 1 } else { length_of(w) }
}

// A WRITE's burst goes on without end: full page, unless writes are single.
pub fn write_endless(w: u16) -> bool
    ensures { result ≡ write_endless w }
{
    full_page(w) && !single(w)
}

// Where column c stands in its block: a burst's length is a power of two, so the block is found by a mask.
#[tactic(auto, using(crate::proofs::Length::place_by_mask), unfolding(crate::specs::Word::length_of))]
pub fn block_place(w: u16, c: u64) -> u16
    ensures { result ≡ c % length_of w }
{
    (c & (length_of(w) as u64 - 1)) as u16
}

// Beat i inside the block, from start s. Interleaved: start exclusive or beat number. Sequential: start plus beat number, which
// is taken modulo the length first, so that no sum can pass 64 bits.
#[tactic(auto, using(crate::proofs::Length::sequential_place))]
pub fn in_block(w: u16, s: u16, i: u64) -> u16
    ensures { result ≡ in_block w s i }
{
    let start = s as u64;
    if interleaved(w) {
        block_place(w, start ^ i)
    } else {
        block_place(w, start + block_place(w, i) as u64)
    }
}

// The column of beat i of a burst from column c. "Full page wraps at 2,048 columns and goes on without end."
#[tactic(auto, using(crate::proofs::Length::column_fits), unfolding(crate::specs::Order::beat_column))]
pub fn beat_column(w: u16, c: u16, i: u64) -> u16
    ensures { result ≡ beat_column w c i }
{
    if full_page(w) {
        let columns = COLUMNS as u64;
        return ((c as u64 + i % columns) % columns) as u16;
    }
    let s = block_place(w, c as u64);
    c - s + in_block(w, s, i)
}
