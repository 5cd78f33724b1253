// The speed table of document 01: thirteen numbers, in its order.
#![tactic(auto)]

ghost use Rattle.std.specs.Prelude.{◌≡◌};
ghost use Rattle.speed.specs.Table.{table, grade_13E, grade_133, of_grade, table_fits};

use units::{Clock, Ps};

#[derive(Clone, Copy)]
pub struct SpeedTable {
    pub tck2: Ps,
    pub tck3: Ps,
    pub trasmin: Ps,
    pub trasmax: Ps,
    pub trc: Ps,
    pub trcd: Ps,
    pub trp: Ps,
    pub trrd: Ps,
    pub trfc: Ps,
    pub twr: Ps,
    pub addition: Ps,
    pub interval: Ps,
    pub tmrd: Clock,
}

impl SpeedTable {
    // The bounds of a caller's own table: "each time 0 to 200,000,000, tMRD 0 to 15".
    pub const TIME_MAX: u64 = 200_000_000;

    pub const TMRD_MAX: u64 = 15;

    // Thirteen numbers in document 01's order: times in picoseconds, and tMRD in clocks.
    pub fn of_numbers(
        tck2: u64,
        tck3: u64,
        trasmin: u64,
        trasmax: u64,
        trc: u64,
        trcd: u64,
        trp: u64,
        trrd: u64,
        trfc: u64,
        twr: u64,
        addition: u64,
        interval: u64,
        tmrd: u64,
    ) -> SpeedTable
        ensures { result ≡ table tck2 tck3 trasmin trasmax trc trcd trp trrd trfc twr addition interval tmrd }
    {
        SpeedTable {
            tck2: Ps(tck2),
            tck3: Ps(tck3),
            trasmin: Ps(trasmin),
            trasmax: Ps(trasmax),
            trc: Ps(trc),
            trcd: Ps(trcd),
            trp: Ps(trp),
            trrd: Ps(trrd),
            trfc: Ps(trfc),
            twr: Ps(twr),
            addition: Ps(addition),
            interval: Ps(interval),
            tmrd: Clock(tmrd),
        }
    }

    // The column -13E of 003's table. Two columns are two functions: document 01 names this form, and each number stands beside its field.
    pub fn grade_13e() -> SpeedTable
        ensures { result ≡ grade_13E }
    {
        SpeedTable {
            tck2: Ps(7_500),
            tck3: Ps(7_000),
            trasmin: Ps(37_000),
            trasmax: Ps(120_000_000),
            trc: Ps(60_000),
            trcd: Ps(15_000),
            trp: Ps(15_000),
            trrd: Ps(14_000),
            trfc: Ps(66_000),
            twr: Ps(14_000),
            addition: Ps(7_000),
            interval: Ps(7_812_500),
            tmrd: Clock(2),
        }
    }

    // The column -133. Its auto precharge addition is that of note 24: the table itself prints 7 ns for both grades.
    pub fn grade_133() -> SpeedTable
        ensures { result ≡ grade_133 }
    {
        SpeedTable {
            tck2: Ps(10_000),
            tck3: Ps(7_500),
            trasmin: Ps(44_000),
            trasmax: Ps(120_000_000),
            trc: Ps(66_000),
            trcd: Ps(20_000),
            trp: Ps(20_000),
            trrd: Ps(15_000),
            trfc: Ps(66_000),
            twr: Ps(15_000),
            addition: Ps(7_500),
            interval: Ps(7_812_500),
            tmrd: Clock(2),
        }
    }

    // The table of a header's grade: 1 is -13E. Any other is read as -133, and a header with another is refused before.
    pub fn of_grade(g: u8) -> SpeedTable
        ensures { result ≡ of_grade g }
    {
        if g == 1 {
            SpeedTable::grade_13e()
        } else {
            SpeedTable::grade_133()
        }
    }

    // The table is inside the bounds: number 6 is given exactly when it is not.
    #[tactic(auto, unfolding(crate::specs::Table::table_fits))]
    pub fn fits(self) -> bool
        ensures { result ≡ table_fits self }
    {
        (self.tck2.0 <= SpeedTable::TIME_MAX)
            & (self.tck3.0 <= SpeedTable::TIME_MAX)
            & (self.trasmin.0 <= SpeedTable::TIME_MAX)
            & (self.trasmax.0 <= SpeedTable::TIME_MAX)
            & (self.trc.0 <= SpeedTable::TIME_MAX)
            & (self.trcd.0 <= SpeedTable::TIME_MAX)
            & (self.trp.0 <= SpeedTable::TIME_MAX)
            & (self.trrd.0 <= SpeedTable::TIME_MAX)
            & (self.trfc.0 <= SpeedTable::TIME_MAX)
            & (self.twr.0 <= SpeedTable::TIME_MAX)
            & (self.addition.0 <= SpeedTable::TIME_MAX)
            & (self.interval.0 <= SpeedTable::TIME_MAX)
            & (self.tmrd.0 <= SpeedTable::TMRD_MAX)
            & (self.trasmin.0 <= self.trasmax.0)
    }
}
