// The beats of one burst, and what a beat stores or drives (01, Beats).
ghost use Rattle.std.specs.Prelude.{◌-◌, max, ◌≡◌, not, ◌&&◌};
ghost use Rattle.units.specs.Time.{clock};
ghost use Rattle.mode.specs.Word.{length_of};
ghost use Rattle.bursts.specs.Burst.{before_cut, in_time, has_beat, lanes_low, cells_at, write_beat, reads_on, to_come, read_beat, finished};

use crate::{Beat, Burst, Cells};
use mode::{beat_column, full_page, latency, length_of, write_endless, write_length};
use units::Clock;

// The beat on clock n is not lost. A cut on x takes it where "w < x <= w + i": one on the beat's own clock does, one that is
// not after the burst's start does not.
pub fn before_cut(start: Clock, n: Clock, cut: Option<Clock>) -> bool
    ensures { result ≡ before_cut start n cut }
{
    match cut {
        None => true,
        Some(x) => !(start < x && x <= n),
    }
}

// The later of the registration and CL clocks before n: the first clock whose fetch is seen on clock n or later.
fn first_fetch(start: Clock, n: Clock, cl: u64) -> Clock
    ensures { result ≡ clock (max start.0 (n.0 - cl)) }
{
    start.max(Clock(n.0.saturating_sub(cl)))
}

// "Lanes with DQMB LOW": all that are not masked.
pub fn lanes_low(masks: u8) -> u8
    ensures { result ≡ lanes_low masks }
{
    255 - masks
}

// Beat i of a burst from this bank, row and column, on the lanes that these masks leave. It takes numbers and not the burst:
// a burst that is handed on is a copy, made before it is known whether there is a beat.
pub fn cells_at(bank: u8, row: u16, word: u16, column: u16, i: u64, masks: u8) -> Cells
    ensures { result ≡ cells_at bank row word column i masks }
{
    Cells {
        bank,
        row,
        column: beat_column(word, column, i),
        lanes: lanes_low(masks),
    }
}

impl Burst {
    // The burst has begun by clock n, and is not cut by then. It is asked before any length is worked out: most bursts that
    // are held have been cut.
    fn in_time(self, n: Clock) -> bool
        ensures { result ≡ in_time self n }
    {
        self.live && self.start <= n && before_cut(self.start, n, self.cut)
    }

    // The burst has a beat n - start: it is not ahead, not cut by then, and not at its end. By subtraction, so that no
    // sum can pass 64 bits.
    #[tactic(auto, using(crate::proofs::HasBeat::beat_in_time, crate::proofs::HasBeat::none_out_of_time))]
    pub fn has_beat(self, length: u16, endless: bool, n: Clock) -> bool
        ensures { result ≡ has_beat self length endless n }
    {
        self.in_time(n) && (endless || n.0 - self.start.0 < length as u64)
    }

    // "WRITE at w: beat i on w + i", stored on the lanes with DQMB LOW on that clock. With M9 = 1 there is one beat.
    #[tactic(auto, using(crate::proofs::HasBeat::beat_in_time, crate::proofs::HasBeat::none_out_of_time), unfolding(crate::specs::Burst::write_beat))]
    pub fn write_beat(self, masks: u8, n: Clock) -> Beat
        ensures { result ≡ write_beat self masks n }
    {
        if !self.in_time(n) {
            return Beat::Quiet;
        }
        let i = n.0 - self.start.0;
        if write_endless(self.word) || i < write_length(self.word) as u64 {
            Beat::Stores(cells_at(self.bank, self.row, self.word, self.column, i, masks))
        } else {
            Beat::Quiet
        }
    }

    // "READ at r: beat i on r + CL + i": on clock n runs the beat that was fetched CL clocks before.
    pub fn reads_on(self, n: Clock) -> bool
        ensures { result ≡ reads_on self n }
    {
        if !self.live {
            return false;
        }
        let cl = latency(self.word) as u64;
        if n.0 < cl {
            return false;
        }
        let m = Clock(n.0 - cl);
        if !self.in_time(m) {
            return false;
        }
        let length = length_of(self.word);
        let endless = full_page(self.word);
        endless | (m.0 - self.start.0 < length as u64)
    }

    // Some beat is on clock n or later. Beats are fetched clock after clock, so the first from CL before n on tells.
    #[tactic(auto, using(crate::proofs::HasBeat::none_where_no_burst))]
    pub fn to_come(self, n: Clock) -> bool
        ensures { result ≡ to_come n self }
    {
        let cl = latency(self.word) as u64;
        let m = first_fetch(self.start, n, cl);
        self.live && self.has_beat(length_of(self.word), full_page(self.word), m)
    }

    // The beat on clock n. `masks` are those of two clocks before n.
    #[tactic(auto, using(crate::proofs::HasBeat::fetched_since), unfolding(crate::specs::Burst::read_beat))]
    pub fn read_beat(self, masks: u8, n: Clock) -> Beat
        ensures { result ≡ read_beat self masks n }
    {
        if self.reads_on(n) {
            let cl = latency(self.word) as u64;
            let i = n.0 - cl - self.start.0;
            Beat::Drives(cells_at(self.bank, self.row, self.word, self.column, i, masks))
        } else {
            Beat::Quiet
        }
    }

    // No auto precharge burst, or one that is finished on clock n: "unfinished means a clock before r + length or
    // w + length". By subtraction, as above. By returns, here and in `read_finished`: by && and || they took 16 instructions a record more
    // in random access, 537 for 521.
    #[tactic(auto, using(units::proofs::Subtraction::leb_since, units::proofs::Subtraction::leb_ahead), unfolding(crate::specs::Burst::finished))]
    pub fn finished(self, length: u16, n: Clock) -> bool
        ensures { result ≡ finished length n self }
    {
        if !(self.live & self.auto) {
            return true;
        }
        if n < self.start {
            return false;
        }
        length as u64 <= n.0 - self.start.0
    }

    // A READ's burst asks no auto precharge, or is finished on clock n. Number 19 ends at r + length, though beats run on
    // for CL clocks. The length is worked out only where it is asked for.
    #[tactic(auto, using(crate::proofs::AutoPrecharge::none_is_finished))]
    pub fn read_finished(self, n: Clock) -> bool
        ensures { result ≡ finished (length_of self.word) n self }
    {
        if !(self.live & self.auto) {
            return true;
        }
        self.finished(length_of(self.word), n)
    }

    // A READ's burst drives no lane on clock n, nor on clock m. `lane` and `earlier` say whether the masks leave a lane
    // on n and on m: where they leave none, or there is no burst, no beat is looked for. By returns, here and in `reads_on`: by && alone
    // the two, with the order of Clock above, took 42 instructions a record more in mostly NOP, 253 for 211.
    pub fn leaves_clear(self, lane: bool, earlier: bool, n: Clock, m: Clock) -> bool
        ensures { result ≡ (not (lane && reads_on self n) && not (earlier && reads_on self m)) }
    {
        if self.live & (lane | earlier) {
            if lane & self.reads_on(n) {
                return false;
            }
            if earlier & self.reads_on(m) {
                return false;
            }
        }
        true
    }
}
