// What the bytes of a trace say: its header, its records, and the command of a record.
#![tactic(auto)]

ghost use Rattle.std.specs.Prelude.{◌<◌, ◌+◌, ◌≡◌, cond, [], ◌∷◌, leb, length};
ghost use Rattle.layout.specs.Bytes.{number_after, word_at, header_from, has_pins, lane_masks, record_from, read_header, read_record};
ghost use Rattle.layout.specs.Commands.{command_of, code_of, is, executable, looks_at_all, access, a10_of, column_of, column_on, covers};

use units::Module;

// The trace's first 16 bytes.
#[derive(Clone, Copy)]
pub struct Header {
    pub version: u8,
    pub period: u32,
    pub count: u16,
    pub grade: u8,
    pub bank: u8,
    pub row: u16,
    pub zeros: u64,
}

// One record of 16 bytes: the clocks skipped before it, the pins, and the data bus.
#[derive(Clone, Copy)]
pub struct Record {
    pub skipped: u32,
    pub cke: u8,
    pub code: u8,
    pub ba: u8,
    pub addr: u16,
    pub column: u16,
    pub masks: u8,
    pub zeros: u16,
    pub dq: u64,
}

// The commands of 003 table 8, in the order of their codes: CS#, RAS#, CAS#, WE# from LLLL on, then CS# HIGH.
#[derive(Clone, Copy, PartialEq, Eq)]
pub enum Command {
    LoadMode,
    Refresh,
    Precharge,
    Active,
    Write,
    Read,
    Terminate,
    Nop,
    Inhibit,
}

// Eight bytes as one number, "most significant bit first". By `|` and not `+`, and in one expression: of that LLVM makes
// one load and one byte swap.
pub fn word(a: u8, b: u8, c: u8, d: u8, e: u8, f: u8, g: u8, h: u8) -> u64
    ensures { result ≡ number_after 0 (a ∷ b ∷ c ∷ d ∷ e ∷ f ∷ g ∷ h ∷ []) }
{
    (a as u64) * 72_057_594_037_927_936
        | (b as u64) * 281_474_976_710_656
        | (c as u64) * 1_099_511_627_776
        | (d as u64) * 4_294_967_296
        | (e as u64) * 16_777_216
        | (f as u64) * 65_536
        | (g as u64) * 256
        | (h as u64)
}

// A header out of its two words: version 8 bits, period 24, count 16, grade 8, bank 2, row 13, zeros 57. The row's
// upper 6 bits end the first word and its lower 7 begin the second.
#[tactic(auto, unfolding(crate::specs::Bytes::header_from))]
pub fn header_from(first: u64, second: u64) -> Header
    ensures { result ≡ header_from first second }
{
    Header {
        version: (first / 72_057_594_037_927_936 % 256) as u8,
        period: (first / 4_294_967_296 % 16_777_216) as u32,
        count: (first / 65_536 % 65_536) as u16,
        grade: (first / 256 % 256) as u8,
        bank: (first / 64 % 4) as u8,
        row: (first % 64 * 128 + second / 144_115_188_075_855_872 % 128) as u16,
        zeros: second % 144_115_188_075_855_872,
    }
}

// The module has a pin for each bit of address, masks and data that is set. The bench has one for every bit.
#[tactic(auto, unfolding(crate::specs::Bytes::has_pins))]
fn has_pins(m: Module, addr: u16, masks: u8, dq: u64) -> bool
    requires { addr < 8192 }
    ensures { result ≡ has_pins m addr masks dq }
{
    match m {
        Module::Bench => true,
        Module::Handheld => (addr < 4_096) & (masks < 4) & (dq < 65_536),
    }
}

// The masks, with those of absent lanes HIGH: a lane that the module does not have is masked on each clock.
#[tactic(auto, unfolding(crate::specs::Bytes::lane_masks))]
fn lane_masks(m: Module, masks: u8) -> u8
    ensures { result ≡ lane_masks m masks }
{
    match m {
        Module::Bench => masks,
        Module::Handheld => masks % 4 + 252,
    }
}

// The zero bits, and one more if a bit is set that the module has no pin for.
fn zeros_with(zeros: u16, pins: bool) -> u16
    requires { zeros < 4096 }
    ensures { result ≡ (zeros + cond pins 0 1) }
{
    if pins { zeros } else { zeros + 1 }
}

// A record out of its two words: skipped clocks 24 bits, CKE 1, CS# RAS# CAS# WE# 4, BA 2, A12 to A0 13, DQMB7 to
// DQMB0 8, zeros 12; then DQ63 to DQ0. Pins that the module lacks are dealt with here and nowhere later.
#[tactic(auto, unfolding(crate::specs::Bytes::record_from))]
pub fn record_from(m: Module, first: u64, second: u64) -> Record
    ensures { result ≡ record_from m first second }
{
    let addr = (first / 1_048_576 % 8_192) as u16;
    let masks = (first / 4_096 % 256) as u8;
    let zeros = (first % 4_096) as u16;
    let pins = has_pins(m, addr, masks, second);
    let lanes = lane_masks(m, masks);
    let column = column_on(m, addr);
    Record {
        skipped: (first / 1_099_511_627_776 % 16_777_216) as u32,
        cke: (first / 549_755_813_888 % 2) as u8,
        code: (first / 34_359_738_368 % 16) as u8,
        ba: (first / 8_589_934_592 % 4) as u8,
        addr,
        column,
        masks: lanes,
        zeros: zeros_with(zeros, pins),
        dq: second,
    }
}

// The first eight bytes as one number; with fewer there is none, and 0 stands for it.
pub fn first_word(bytes: &[u8]) -> u64
    ensures { result ≡ cond (leb 8 (length bytes.now)) (word_at bytes.now 0) 0 }
{
    if bytes.len() < 8 {
        return 0;
    }
    word(
        bytes[0], bytes[1], bytes[2], bytes[3], bytes[4], bytes[5], bytes[6], bytes[7],
    )
}

// The header at the start of a trace: number 1 is given where there are "under 16 bytes".
#[tactic(auto, unfolding(crate::specs::Bytes::read_header))]
pub fn read_header(bytes: &[u8]) -> Option<Header>
    ensures { result ≡ read_header bytes.now }
{
    if bytes.len() < 16 {
        return None;
    }
    let first = first_word(bytes);
    let second = first_word(&bytes[8..16]);
    Some(header_from(first, second))
}

// One record: "a record not 16 bytes long gives 1".
#[tactic(auto, unfolding(crate::specs::Bytes::read_record))]
pub fn read_record(m: Module, bytes: &[u8]) -> Option<Record>
    ensures { result ≡ read_record m bytes.now }
{
    if bytes.len() == 16 {
        let first = first_word(bytes);
        let second = first_word(&bytes[8..16]);
        Some(record_from(m, first, second))
    } else {
        None
    }
}

impl From<u8> for Command {
    ghost from_gives = { λ code k. k ≡ command_of code };

    // The command of CS#, RAS#, CAS#, WE# as a number of four bits: 003 table 8, from LLLL on. With CS# HIGH all eight codes are
    // COMMAND INHIBIT.
    fn from(code: u8) -> Command {
        match code {
            0 => Command::LoadMode,
            1 => Command::Refresh,
            2 => Command::Precharge,
            3 => Command::Active,
            4 => Command::Write,
            5 => Command::Read,
            6 => Command::Terminate,
            7 => Command::Nop,
            _ => Command::Inhibit,
        }
    }
}

impl From<Command> for u8 {
    ghost from_gives = { λ k n. n ≡ code_of k };

    // The number of a command: its code, and 8 for COMMAND INHIBIT, which has eight.
    fn from(k: Command) -> u8 {
        k as u8
    }
}

impl Command {
    // The rules 14 to 22 are asked of these only: all but NOP and COMMAND INHIBIT.
    pub fn is_executable(self) -> bool
        ensures { result ≡ executable self }
    {
        !matches!(self, Command::Nop | Command::Inhibit)
    }

    // LOAD MODE, AUTO REFRESH and PRECHARGE, which look at each of the four banks.
    pub fn looks_at_all(self) -> bool
        ensures { result ≡ looks_at_all self }
    {
        matches!(
            self,
            Command::LoadMode | Command::Refresh | Command::Precharge
        )
    }

    // READ or WRITE.
    pub fn is_access(self) -> bool
        ensures { result ≡ access self }
    {
        matches!(self, Command::Read | Command::Write)
    }
}

// A10 HIGH: a READ or WRITE with auto precharge, a PRECHARGE of all four banks.
pub fn a10(addr: u16) -> bool
    ensures { result ≡ a10_of addr }
{
    addr / 1_024 % 2 == 1
}

// The column of a READ or WRITE: "A11 then A9 to A0; A12 is ignored". A10 lies between them and is no column bit.
pub fn column_of(addr: u16) -> u16
    ensures { result ≡ column_of addr }
{
    addr / 2_048 % 2 * 1_024 + addr % 1_024
}

// Of those, the bits that the module has.
#[tactic(auto, unfolding(crate::specs::Commands::column_on))]
fn column_on(m: Module, addr: u16) -> u16
    ensures { result ≡ column_on m addr }
{
    match m {
        Module::Bench => column_of(addr),
        Module::Handheld => addr % 256,
    }
}

// A PRECHARGE is for bank i: "one bank or (A10 HIGH) each of the four".
pub fn covers(addr: u16, ba: u8, i: u8) -> bool
    ensures { result ≡ covers addr ba i }
{
    a10(addr) | (i == ba)
}
