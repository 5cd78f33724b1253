// Number 16 as eight tests.
ghost use Rattle.std.specs.Prelude.{◌≡◌};
ghost use Rattle.speed.specs.Bounds.{Bounds};
ghost use Rattle.units.specs.Reach.{FitPeriod};
ghost use Rattle.rules.specs.Calls.{BanksFit};
ghost use Rattle.rules.specs.Admitted.{FitStartUp, FitBank};
ghost use Rattle.rules.specs.Banks.{bank_at};
ghost use Rattle.rules.specs.Minima.{only, of_any, of_active, of_access, of_precharged, of_covered, of_precharge, of_idle};
ghost use Rattle.asking.specs.Shorts.{FitSpan, shorts, no_shorts, either, lowest, short_closed, short_other, short_others, short_closings};

use crate::{Shorts, since};
use layout::Record;
use rules::timing::Timing;
use rules::{Bank, Interval, Refusal, StartUp};
use speed::SpeedTable;
use units::{Ps, time};

impl Shorts {
    // All minima are met.
    pub(crate) fn none() -> Shorts
        ensures { result ≡ no_shorts }
    {
        Shorts {
            rcd: false,
            ras: false,
            rc: false,
            rp: false,
            rrd: false,
            rfc: false,
            wr: false,
            mrd: false,
        }
    }

    // What is short by either.
    #[tactic(auto, unfolding(crate::specs::Shorts::either))]
    pub(crate) fn or(self, other: Shorts) -> Shorts
        ensures { result ≡ either self other }
    {
        Shorts {
            rcd: self.rcd | other.rcd,
            ras: self.ras | other.ras,
            rc: self.rc | other.rc,
            rp: self.rp | other.rp,
            rrd: self.rrd | other.rrd,
            rfc: self.rfc | other.rfc,
            wr: self.wr | other.wr,
            mrd: self.mrd | other.mrd,
        }
    }

    // "The lowest such is named."
    #[tactic(auto, unfolding(crate::specs::Shorts::lowest))]
    pub(crate) fn lowest(self) -> Result<(), Refusal>
        ensures { result ≡ lowest self }
    {
        let interval = match self {
            Shorts { rcd: true, .. } => Interval::Rcd,
            Shorts { ras: true, .. } => Interval::Ras,
            Shorts { rc: true, .. } => Interval::Rc,
            Shorts { rp: true, .. } => Interval::Rp,
            Shorts { rrd: true, .. } => Interval::Rrd,
            Shorts { rfc: true, .. } => Interval::Rfc,
            Shorts { wr: true, .. } => Interval::Wr,
            Shorts { mrd: true, .. } => Interval::Mrd,
            _ => return Ok(()),
        };
        Err(Refusal::TooSoon(interval))
    }
}

// "Any executable command: tRFC since the last refresh, tMRD since the last mode load, tRP since the last PRECHARGE ALL."
#[tactic(auto, unfolding(rules::specs::Minima::of_any, crate::specs::Shorts::shorts))]
pub fn any_shorts(timing: Timing, u: StartUp, moment: Ps) -> Shorts
    requires { FitStartUp u }
    ensures { result ≡ shorts timing.table timing.period moment (of_any timing.period u) }
{
    let Timing { table, period } = timing;
    let refresh = u.refreshes.last();
    let mrd = time::at(period, table.tmrd);
    Shorts {
        rp: since::short_since(period, u.allclosed, table.trp, moment),
        rfc: since::short_since(period, refresh, table.trfc, moment),
        mrd: since::short_since(period, u.last_load(), mrd, moment),
        ..Shorts::none()
    }
}

// tRRD since the last ACTIVE of bank i, where that is another bank than `ba`.
fn short_other(period: Ps, ba: u8, i: u8, b: Bank, min: Ps, moment: Ps) -> bool
    requires { FitPeriod period × FitBank b × FitSpan min }
    ensures { result ≡ short_other period ba i b min moment }
{
    i != ba && since::short_since(period, b.active, min, moment)
}

#[tactic(auto, unfolding(crate::specs::Shorts::short_others))]
pub fn short_others(period: Ps, ba: u8, banks: [Bank; 4], min: Ps, moment: Ps) -> bool
    requires { FitPeriod period × BanksFit banks × FitSpan min }
    ensures { result ≡ short_others period ba banks min moment }
{
    (0..4).any(|i| short_other(period, ba, i, banks[i as usize], min, moment))
}

// "ACTIVE: tRP since its closing; tRC since its last ACTIVE; tRRD since the last ACTIVE of another bank."
#[tactic(auto, unfolding(rules::specs::Minima::of_active, crate::specs::Shorts::shorts))]
pub fn active_shorts(timing: Timing, ba: u8, own: Bank, banks: [Bank; 4], moment: Ps) -> Shorts
    requires { BanksFit banks × (own ≡ bank_at banks ba) }
    ensures { result ≡ shorts timing.table timing.period moment (of_active timing.period ba banks) }
{
    let Timing { table, period } = timing;
    Shorts {
        rc: since::short_since(period, own.active, table.trc, moment),
        rp: since::short_closed(own.status, table.trp, moment),
        rrd: short_others(period, ba, banks, table.trrd, moment),
        ..Shorts::none()
    }
}

// "READ, WRITE: tRCD since its ACTIVE", where the command is one of these.
#[tactic(auto, unfolding(rules::specs::Minima::of_access, crate::specs::Shorts::shorts))]
pub fn access_shorts(access: bool, timing: Timing, b: Bank, moment: Ps) -> Shorts
    requires { FitBank b }
    ensures { result ≡ shorts timing.table timing.period moment (only access (of_access timing.period b)) }
{
    Shorts {
        rcd: access & since::short_opened(timing.period, b.status, timing.table.trcd, moment),
        ..Shorts::none()
    }
}

// "An open bank needs tRAS min, and tWR since the last clock on which a byte was stored in it"; a closed one tRP.
#[tactic(auto, unfolding(rules::specs::Minima::of_precharged, crate::specs::Shorts::shorts))]
pub fn precharged_shorts(timing: Timing, b: Bank, moment: Ps) -> Shorts
    requires { FitBank b }
    ensures { result ≡ shorts timing.table timing.period moment (of_precharged timing.period b) }
{
    let Timing { table, period } = timing;
    Shorts {
        ras: since::short_opened(period, b.status, table.trasmin, moment),
        rp: since::short_closed(b.status, table.trp, moment),
        wr: since::short_stored(period, b.status, b.stored, table.twr, moment),
        ..Shorts::none()
    }
}

// Bank i, where the PRECHARGE is for it.
#[tactic(auto, unfolding(crate::specs::Shorts::shorts))]
pub fn covered_shorts(timing: Timing, r: Record, i: u8, b: Bank, moment: Ps) -> Shorts
    requires { FitBank b }
    ensures { result ≡ shorts timing.table timing.period moment (of_covered timing.period r i b) }
{
    if layout::covers(r.addr, r.ba, i) {
        precharged_shorts(timing, b, moment)
    } else {
        Shorts::none()
    }
}

// "PRECHARGE, one bank or (A10 HIGH) each of the four."
#[tactic(auto, unfolding(rules::specs::Minima::of_precharge, crate::specs::Shorts::shorts))]
pub fn precharge_shorts(timing: Timing, r: Record, banks: [Bank; 4], moment: Ps) -> Shorts
    requires { BanksFit banks }
    ensures { result ≡ shorts timing.table timing.period moment (of_precharge timing.period r banks) }
{
    let [a, b, c, d] = banks;
    let first = covered_shorts(timing, r, 0, a, moment);
    let second = covered_shorts(timing, r, 1, b, moment);
    let third = covered_shorts(timing, r, 2, c, moment);
    let fourth = covered_shorts(timing, r, 3, d, moment);
    first.or(second.or(third.or(fourth)))
}

// tRP since some bank's closing.
#[tactic(auto, unfolding(crate::specs::Shorts::short_closings))]
pub fn short_closings(banks: [Bank; 4], min: Ps, moment: Ps) -> bool
    requires { BanksFit banks × FitSpan min }
    ensures { result ≡ short_closings banks min moment }
{
    banks
        .iter()
        .any(|b| since::short_closed(b.status, min, moment))
}

// "AUTO REFRESH, LOAD MODE: .. tRP since each closing." Of the period it asks nothing, where a Timing would.
#[tactic(auto, unfolding(rules::specs::Minima::of_idle, crate::specs::Shorts::shorts))]
pub fn idle_shorts(t: SpeedTable, period: Ps, banks: [Bank; 4], moment: Ps) -> Shorts
    requires { BanksFit banks × Bounds t }
    ensures { result ≡ shorts t period moment (of_idle banks) }
{
    Shorts {
        rp: short_closings(banks, t.trp, moment),
        ..Shorts::none()
    }
}
