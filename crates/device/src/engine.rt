// The engine: records of a lent slice, each asked and then taken, up to the first that is refused. Every call of the device is
// this: the one-record calls are the engine on one record.
ghost use Rattle.std.specs.Prelude.{◌≡◌, suc, ◌≤◌, ◌*◌, ◌-◌, cond, leb, length, drop};
ghost use Rattle.layout.specs.Bytes.{records_of};
ghost use Rattle.rules.specs.Parts.{core_module};
ghost use Rattle.rules.specs.Calls.{Able};
ghost use Rattle.rules.specs.Run.{beat_left};
ghost use Rattle.rules.specs.Fits.{number_max};
ghost use Rattle.rules.specs.Report.{put_line, left, ran, records_lent, call_run, records_next};
ghost use Rattle.packed.specs.Packed.{banks_in};
ghost use Rattle.bursts.specs.declared.Beat.TheVariants as Beat;
ghost use Rattle.device.specs.InPlace.{words_ahead, whole, core_of};
ghost use Rattle.device.specs.Engine.{went, gone, went_by, above_max};

use crate::{Went, Words, reporting};
use bursts::{Beat, Bus};
use bus::{databus, reads};
use layout::Command;
use packed::inplace;
use rules::timing::Timing;
use rules::{Bank, Core, NUMBER_MAX, Refusal, Setup, StartUp, State, clocks};
use taking::leaving;
use units::{Clock, Module};

// The words of the record at the start of `bytes`; with under 16 bytes there is none, and zeros stand for them.
#[tactic(auto, unfolding(crate::specs::InPlace::words_ahead))]
fn words_of(bytes: &[u8]) -> Words
    ensures { result ≡ words_ahead bytes.now }
{
    if bytes.len() < 16 {
        return Words {
            first: 0,
            second: 0,
        };
    }
    let first = layout::first_word(bytes);
    let second = layout::first_word(&bytes[8..16]);
    Words { first, second }
}

// The words of record j, or zeros past the last.
fn words_at(bytes: &[u8], j: usize) -> Words
    requires { 16 * j ≤ length bytes.now }
    ensures { result ≡ words_ahead (drop (16 * j) bytes.now) }
{
    let next = 16 * j;
    words_of(&bytes[next..])
}

// All but the banks; period, watched bank and row stay as they are in c.
fn core_of(c: Core, number: u64, last: Option<Clock>, startup: StartUp, bus: Bus) -> Core
    ensures { result ≡ core_of c number last startup bus }
{
    Core {
        number,
        last,
        startup,
        bus,
        ..c
    }
}

// Record k's beat and clock. Where the beat has no place, the clock has none.
#[tactic(auto, unfolding(rules::specs::Report::put_line))]
fn report(beats: &mut [u64], k: u64, beat: Beat, n: Clock)
    requires { k ≤ number_max }
    ensures { beats.new ≡ put_line k (record { clock = n; beat = beat }) beats.old }
{
    let at = 2 * (k as usize);
    if at < beats.len() {
        beats[at] = reporting::beat_word(beat);
        reporting::put(beats, at + 1, n.0);
    }
}

// What the engine leaves where it holds this core and these banks.
fn went(verdict: Result<(), Refusal>, beat: Beat, core: Core, held: &[u64; 32]) -> Went
    ensures { result ≡ went verdict core.number beat (whole core (banks_in held.now)) }
{
    Went {
        verdict,
        reported: core.number,
        beat,
        next: State {
            core,
            banks: inplace::banks(held),
        },
    }
}

// `count` records from a state, each asked and then taken, up to the first that is refused. The state is held in its parts and
// changed in place: most records leave most of it, and to build it anew for each cost more than judging it. The banks are held
// as numbers for the same reason, and a record's two words are read a turn ahead, where each is one load.
fn fold(
    u: Setup,
    core: Core,
    banks: [Bank; 4],
    bytes: &[u8],
    count: usize,
    page: &mut [u8],
    beats: &mut [u64],
) -> Went
    requires { (length bytes.now ≡ 16 * count) × Able u (whole core banks) count }
    ensures { gone result page.new beats.new ≡ went_by u (whole core banks) (records_of (core_module core) count bytes.now) Beat.Quiet page.old beats.old }
{
    let t = u.table;
    let timing = Timing {
        table: t,
        period: core.period,
    };
    let m = Module::of_grade(core.grade);
    let mut number = core.number;
    let mut last = core.last;
    let mut startup = core.startup;
    let mut bus = core.bus;
    let mut held = inplace::hold(banks);
    let mut words = words_at(bytes, 0);
    let mut own = Beat::Quiet;
    for j in 0..count {
        let r = layout::record_from(m, words.first, words.second);
        let n = clocks::clock_of(last, r.skipped);
        let c = core_of(core, number, last, startup, bus);
        let v = inplace::ask(t, c, &held, r, n);
        let Ok(()) = v else {
            return went(v, own, c, &held);
        };
        let k = Command::from(r.code);
        let masks = bus.masks;
        if reads::can_end(k) {
            bus = inplace::move_bus(k, r, n, startup, &held, bus);
        }
        if k.is_executable() {
            inplace::move_banks(k, timing, startup, r, n, &mut held);
            startup = leaving::startup_after(k, r, n, startup);
        }
        bus.masks = masks.after(r.skipped, r.masks);
        let write = bus.write;
        let driven = bus.reads;
        let beat = databus::beat_on(last, masks, write, driven, r.masks, n);
        inplace::mark_bank(beat, n, &mut held);
        page::stored(m, core.bank, core.row, r.dq, beat, page);
        report(beats, number, beat, n);
        own = beat;
        last = Some(n);
        number += 1;
        words = words_at(bytes, j + 1);
    }
    let c = core_of(core, number, last, startup, bus);
    went(Ok(()), own, c, &held)
}

// Refused before the first record.
fn unmoved(v: Result<(), Refusal>, s: State) -> Went
    ensures { result ≡ went v 0 Beat.Quiet s }
{
    Went {
        verdict: v,
        reported: 0,
        beat: Beat::Quiet,
        next: s,
    }
}

// How many of `count` records come before one whose number is above 2^41.
fn before_max(count: usize, number: u64) -> usize
    requires { number ≤ number_max }
    ensures { result ≡ cond (leb count (suc number_max - number)) count (suc number_max - number) }
{
    let room = NUMBER_MAX + 1 - number;
    if count as u64 <= room {
        return count;
    }
    room as usize
}

// The record after those that were taken has a number above 2^41: it gets 25, as from the one-record call.
fn above_max(w: Went) -> Went
    ensures { result ≡ above_max w }
{
    let Ok(()) = w.verdict else {
        return w;
    };
    Went {
        verdict: Err(Refusal::UnfitState),
        reported: 0,
        ..w
    }
}

// The records of `bytes` from state s. Number 7 is asked of a page of `lent` bytes: asking lends none to store in.
#[tactic(auto, unfolding(rules::specs::Report::records_lent, rules::specs::Report::call_run))]
pub fn judge(
    u: Setup,
    s: State,
    bytes: &[u8],
    lent: usize,
    page: &mut [u8],
    beats: &mut [u64],
) -> Went
    ensures { (left (ran result.verdict result.reported) page.new beats.new ≡ records_lent u s bytes.now lent page.old beats.old)
        × (result.next ≡ records_next u s bytes.now lent) × (result.beat ≡ beat_left (call_run u s bytes.now lent)) }
{
    let count = bytes.len() / 16;
    let v = admitting::records_verdict(u, s, bytes.len(), lent);
    let Ok(()) = v else {
        return unmoved(v, s);
    };
    let some = before_max(count, s.core.number);
    let w = fold(u, s.core, s.banks, &bytes[..16 * some], some, page, beats);
    if some < count {
        return above_max(w);
    }
    w
}
