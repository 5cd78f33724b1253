// The data bus: what a record leaves on it, the beat on a clock, and numbers 19 and 20 (01, Beats).
ghost use Rattle.std.specs.Prelude.{◌≡◌};
ghost use Rattle.bursts.specs.Bus.{write_after, bus_after, beat_on, bursts_finished, one_before, bus_clear};

use crate::reads::{reads_after, reads_beat, reads_clear, reads_finished};
use bursts::masking::{ALL_HIGH, masks_on, two_before};
use bursts::{Beat, Burst, Bus, Masks};
use layout::{Command, Record};
use mode::write_length;
use units::Clock;

// The WRITE burst after command k of record r on clock n, in mode `word`, of the open row: a WRITE's own, or the one
// before it as the command leaves it.
pub fn write_after(k: Command, r: Record, n: Clock, word: u16, row: u16, b: Burst) -> Burst
    ensures { result ≡ write_after k r n word row b }
{
    match k {
        Command::Write => Burst::at(word, n, r.addr, r.column, r.ba, row),
        _ => b.cut_by(k, r.addr, r.ba, n),
    }
}

// The bus after command k of record r on clock n, in mode `word`, of the open row.
#[tactic(auto, unfolding(bursts::specs::Bus::bus_after))]
pub fn bus_after(k: Command, r: Record, n: Clock, word: u16, row: u16, u: Bus) -> Bus
    ensures { result ≡ bus_after k r n word row u }
{
    Bus {
        write: write_after(k, r, n, word, row, u.write),
        reads: reads_after(k, r, n, word, row, u.reads),
        masks: u.masks.after(r.skipped, r.masks),
    }
}

// "The beat on its own clock", n, of a record with these masks, from the bursts that it leaves. A WRITE's lanes hang on
// the record's own masks, a READ's on those of two clocks before.
#[tactic(auto, unfolding(bursts::specs::Bus::beat_on))]
pub fn beat_on(
    last: Option<Clock>,
    old: Masks,
    write: Burst,
    reads: [Burst; 4],
    masks: u8,
    n: Clock,
) -> Beat
    ensures { result ≡ beat_on last old write reads masks n }
{
    match write.write_beat(masks, n) {
        Beat::Quiet => reads_beat(last, old, reads, n),
        stored => stored,
    }
}

// Number 19: no auto precharge burst is unfinished on clock n. A WRITE with M9 = 1 has length 1; the length
// is worked out only where the WRITE asks auto precharge.
#[tactic(auto, using(bursts::proofs::AutoPrecharge::none_is_finished), unfolding(bursts::specs::Bus::bursts_finished))]
pub fn bursts_finished(write: Burst, reads: [Burst; 4], n: Clock) -> bool
    ensures { result ≡ bursts_finished write reads n }
{
    (!(write.live && write.auto) || write.finished(write_length(write.word), n))
        && reads_finished(n, reads)
}

// The clock before n.
pub fn one_before(n: Clock) -> Clock
    ensures { result ≡ one_before n }
{
    Clock(n.0.saturating_sub(1))
}

// Number 20: no lane "would be driven on its clock, or is driven one clock before" (004's extra clock form). The masks of
// both clocks come first: where they are all HIGH no READ drives a lane, and none is looked at.
#[tactic(auto, using(bursts::proofs::Running::driven_by_masks), unfolding(bursts::specs::Bus::bus_clear))]
pub fn bus_clear(last: Option<Clock>, old: Masks, reads: [Burst; 4], n: Clock) -> bool
    ensures { result ≡ bus_clear last old reads n }
{
    let here = masks_on(last, old, two_before(n));
    let m = one_before(n);
    let before = masks_on(last, old, two_before(m));
    reads_clear(reads, here != ALL_HIGH, before != ALL_HIGH, n, m)
}
