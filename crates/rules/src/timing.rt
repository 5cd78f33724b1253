// What a record's times are counted by, once numbers 3 and 6 have passed.
ghost use Rattle.speed.specs.Bounds.{Bounds};
ghost use Rattle.units.specs.Reach.{FitPeriod};

use speed::SpeedTable;
use units::Ps;

// A speed table inside its bounds and a clock period of number 3's: a time of the table after a clock up to 2^40 fits 64 bits.
#[derive(Clone, Copy)]
pub struct Timing {
    pub table: SpeedTable,
    pub period: Ps,
    ghost in_bounds: { Bounds table },
    ghost fit_period: { FitPeriod period },
}
