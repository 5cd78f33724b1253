// The four READ bursts that can still have beats (01, Beats). In a trace the latest stands first. They are walked by value.
ghost use Rattle.std.specs.Prelude.{◌≡◌, ◌∷◌, true, not, ◌&&◌, ◌||◌, cond, ltb};
ghost use Rattle.layout.specs.declared.Command.TheVariants as Command;
ghost use Rattle.layout.specs.Commands.{is, access};
ghost use Rattle.mode.specs.Word.{length_of};
ghost use Rattle.bursts.specs.Burst.{no_burst, reads_on, finished};
ghost use Rattle.bursts.specs.Bus.{
  masks_on,
  two_before,
  no_reads,
  reads_beat,
  reads_run,
  cut_each,
  written_over,
  makes_room,
  with_room,
  reads_after,
  reads_finished,
};

use bursts::masking::{masks_on, two_before};
use bursts::{Beat, Burst, Masks};
use layout::{Command, Record};
use mode::length_of;
use units::Clock;

// The command can end a burst. NOP, COMMAND INHIBIT, ACTIVE, AUTO REFRESH and LOAD MODE end none.
pub fn can_end(k: Command) -> bool
    ensures { result ≡ (access k || is k Command.Terminate || is k Command.Precharge) }
{
    matches!(
        k,
        Command::Read | Command::Write | Command::Terminate | Command::Precharge
    )
}

// A READ registered on y runs, where d, and was registered after one on x.
fn outruns(d: bool, x: Clock, y: Clock) -> bool
    ensures { result ≡ (d && ltb x.0 y.0) }
{
    d && x < y
}

// Which of four READs was registered last, of those that run: a, b, c and d say which run, and one does; w, x, y and z are the
// clocks of their registration. Clocks, not the bursts: what is handed on is copied.
fn latest(a: bool, b: bool, c: bool, d: bool, w: Clock, x: Clock, y: Clock, z: Clock) -> u8
    ensures { result ≡ cond (a && not ((b && ltb w.0 x.0) || ((c && ltb w.0 y.0) || (d && ltb w.0 z.0)))) 0 (cond (b && not ((c && ltb x.0 y.0) || (d && ltb x.0 z.0))) 1 (cond (c && not (d && ltb y.0 z.0)) 2 3)) }
{
    if a && !(outruns(b, w, x) || outruns(c, w, y) || outruns(d, w, z)) {
        0
    } else if b && !(outruns(c, x, y) || outruns(d, x, z)) {
        1
    } else if c && !outruns(d, y, z) {
        2
    } else {
        3
    }
}

// The beat of the READ bursts on clock n: of those that run, the one registered last. Most records find none that runs, and
// the masks of two clocks before are looked up only where one does.
#[tactic(auto, using(bursts::proofs::Latest::none_runs, bursts::proofs::Latest::first_runs, bursts::proofs::Latest::second_runs, bursts::proofs::Latest::third_runs, bursts::proofs::Latest::fourth_runs), unfolding(bursts::specs::Bus::masks_on))]
pub fn reads_beat(last: Option<Clock>, old: Masks, bs: [Burst; 4], n: Clock) -> Beat
    ensures { result ≡ reads_beat bs (masks_on last old (two_before n)) n }
{
    let a = bs[0].reads_on(n);
    let b = bs[1].reads_on(n);
    let c = bs[2].reads_on(n);
    let d = bs[3].reads_on(n);
    if !(a || b || c || d) {
        return Beat::Quiet;
    }
    let masks = masks_on(last, old, two_before(n));
    match latest(
        a,
        b,
        c,
        d,
        bs[0].start,
        bs[1].start,
        bs[2].start,
        bs[3].start,
    ) {
        0 => bs[0].read_beat(masks, n),
        1 => bs[1].read_beat(masks, n),
        2 => bs[2].read_beat(masks, n),
        _ => bs[3].read_beat(masks, n),
    }
}

// Each burst as this command on clock n leaves it. One by one, here and in `written_over`: by `map` they took 40 instructions a record
// more in random access, 561 for 521.
pub fn cut_each(k: Command, addr: u16, ba: u8, n: Clock, bs: [Burst; 4]) -> [Burst; 4]
    ensures { result ≡ cut_each k addr ba n bs }
{
    let a = bs[0].cut_by(k, addr, ba, n);
    let b = bs[1].cut_by(k, addr, ba, n);
    let c = bs[2].cut_by(k, addr, ba, n);
    let d = bs[3].cut_by(k, addr, ba, n);
    [a, b, c, d]
}

// The bursts after a WRITE on clock n: "a WRITE at x with r < x <= r + CL + i" loses every beat still to come of a READ
// before it.
fn written_over(n: Clock, bs: [Burst; 4]) -> [Burst; 4]
    ensures { result ≡ written_over n bs }
{
    let a = bs[0].unless_before(n);
    let b = bs[1].unless_before(n);
    let c = bs[2].unless_before(n);
    let d = bs[3].unless_before(n);
    [a, b, c, d]
}

// Of two READs, the first makes room for a new one.
fn makes_room(b: bool, d: bool, x: Clock, y: Clock) -> bool
    ensures { result ≡ makes_room b d x.0 y.0 }
{
    d && (!b || x < y)
}

// Which of four READs makes room for a new one, where the fourth has beats to come: a, b and c say whether the others have,
// w, x, y and z are the clocks of their registration.
fn room(a: bool, b: bool, c: bool, w: Clock, x: Clock, y: Clock, z: Clock) -> u8
    ensures { result ≡ cond (makes_room a b w.0 x.0 && (makes_room a c w.0 y.0 && makes_room a true w.0 z.0)) 0 (cond (makes_room b c x.0 y.0 && makes_room b true x.0 z.0) 1 (cond (makes_room c true y.0 z.0) 2 3)) }
{
    if makes_room(a, b, w, x) && makes_room(a, c, w, y) && makes_room(a, true, w, z) {
        0
    } else if makes_room(b, c, x, y) && makes_room(b, true, x, z) {
        1
    } else if makes_room(c, true, y, z) {
        2
    } else {
        3
    }
}

// The bursts after command k of record r on clock n, in mode `word`, of the open row. For a new READ one with no beat to come
// makes room: in a trace the fourth, the oldest. Where all four have beats to come, the one registered first does. Most
// records end no burst, and then nothing is walked. By returns and in one function: by a match over the command it took 113 instructions
// a record more in random access, and with the READ in a function of its own 43 more, 604 for 561.
pub fn reads_after(
    k: Command,
    r: Record,
    n: Clock,
    word: u16,
    row: u16,
    bs: [Burst; 4],
) -> [Burst; 4]
    ensures { result ≡ reads_after k r n word row bs }
{
    if k == Command::Write {
        return written_over(n, bs);
    }
    if k == Command::Read {
        let new = Burst::at(word, n, r.addr, r.column, r.ba, row);
        let a = bs[0].cut_if(true, n);
        let b = bs[1].cut_if(true, n);
        let c = bs[2].cut_if(true, n);
        if bs[3].to_come(n) {
            let d = bs[3].cut_if(true, n);
            let i = room(
                bs[0].to_come(n),
                bs[1].to_come(n),
                bs[2].to_come(n),
                bs[0].start,
                bs[1].start,
                bs[2].start,
                bs[3].start,
            );
            if i == 0 {
                return [new, b, c, d];
            }
            if i == 1 {
                return [new, a, c, d];
            }
            if i == 2 {
                return [new, a, b, d];
            }
            return [new, a, b, c];
        }
        return [new, a, b, c];
    }
    if can_end(k) {
        return cut_each(k, r.addr, r.ba, n, bs);
    }
    bs
}

// Each of the four asks no auto precharge, or is finished. One that is unfinished spares a look at the older ones.
#[tactic(auto, using(bursts::proofs::Four::reads_finished_four))]
pub fn reads_finished(n: Clock, bs: [Burst; 4]) -> bool
    ensures { result ≡ reads_finished n bs }
{
    bs[0].read_finished(n)
        && bs[1].read_finished(n)
        && bs[2].read_finished(n)
        && bs[3].read_finished(n)
}

// None of the four drives a lane on clock n, nor on clock m.
pub fn reads_clear(bs: [Burst; 4], lane: bool, earlier: bool, n: Clock, m: Clock) -> bool
    ensures { result ≡ (not (lane && reads_run bs n) && not (earlier && reads_run bs m)) }
{
    let a = bs[0].leaves_clear(lane, earlier, n, m);
    let b = bs[1].leaves_clear(lane, earlier, n, m);
    let c = bs[2].leaves_clear(lane, earlier, n, m);
    let d = bs[3].leaves_clear(lane, earlier, n, m);
    a & (b & (c & d))
}
