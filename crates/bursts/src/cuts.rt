// A burst's registration, and what cuts it short (01, Beats).
ghost use Rattle.std.specs.Prelude.{◌≡◌, cond, ltb};
ghost use Rattle.bursts.specs.Burst.{no_burst, burst_at, ends, cut_on, cut_if, cut_by};

use crate::Burst;
use layout::{Command, a10, covers};
use units::Clock;

// "READ, WRITE, BURST TERMINATE, or PRECHARGE of its bank": whether the command ends a burst of bank i. The first three
// end it whatever bank they are for, and PRECHARGE ALL is for each.
pub fn ends(k: Command, addr: u16, ba: u8, i: u8) -> bool
    ensures { result ≡ ends k addr ba i }
{
    match k {
        Command::Read | Command::Write | Command::Terminate => true,
        Command::Precharge => covers(addr, ba, i),
        _ => false,
    }
}

// The cut of a burst from clock `start`, where one on clock n is asked. It counts after the start only, and where no earlier
// one does: what a cut took is lost for good. By a match and not by one test with `before_cut` and &&: that took 19 instructions a record
// more in random access, and with & 24 more, for 537.
fn cut_on(f: bool, start: Clock, n: Clock, cut: Option<Clock>) -> Option<Clock>
    ensures { result ≡ cond f (cut_on start n cut) cut }
{
    match cut {
        None => { if f & (start.0 < n.0) { Some(n) } else { None } }
        Some(x) => {
            if f & ((start.0 < n.0) & !((start.0 < x.0) & (x.0 <= n.0))) {
                Some(n)
            } else {
                Some(x)
            }
        }
    }
}

impl Burst {
    // No burst. Its mode word is a legal one, as each that a state holds must be.
    pub fn none() -> Burst
        ensures { result ≡ no_burst }
    {
        Burst {
            live: false,
            auto: false,
            bank: 0,
            row: 0,
            column: 0,
            start: Clock(0),
            cut: None,
            word: 0x30,
        }
    }

    // A READ or WRITE that is registered on clock n: "a burst keeps the mode of its registration", whatever is loaded,
    // closed or opened after it.
    pub fn at(word: u16, n: Clock, addr: u16, column: u16, ba: u8, row: u16) -> Burst
        ensures { result ≡ burst_at word n addr column ba row }
    {
        Burst {
            live: true,
            auto: a10(addr),
            bank: ba,
            row,
            column,
            start: n,
            cut: None,
            word,
        }
    }

    // The burst, cut on clock n where that is asked and there is one. It is built anew where nothing is cut, too: a burst
    // that is copied whole takes its unused bytes along, and the loop over the records would carry them from one to the
    // next.
    pub fn cut_if(self, f: bool, n: Clock) -> Burst
        ensures { result ≡ cut_if f n self }
    {
        Burst {
            live: self.live,
            auto: self.auto,
            bank: self.bank,
            row: self.row,
            column: self.column,
            start: self.start,
            cut: cut_on(f && self.live, self.start, n, self.cut),
            word: self.word,
        }
    }

    // The burst as this command on clock n leaves it.
    pub fn cut_by(self, k: Command, addr: u16, ba: u8, n: Clock) -> Burst
        ensures { result ≡ cut_by k addr ba n self }
    {
        self.cut_if(ends(k, addr, ba, self.bank), n)
    }

    // The burst, or none where it was registered before clock n. It is built anew where it stays, as in `cut_if`.
    pub fn unless_before(self, n: Clock) -> Burst
        ensures { result ≡ cond (ltb self.start.0 n.0) no_burst self }
    {
        if self.start < n {
            Burst::none()
        } else {
            self.cut_if(false, n)
        }
    }
}
