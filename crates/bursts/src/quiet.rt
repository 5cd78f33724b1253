// Before the first record: no burst, and the masks HIGH.
ghost use Rattle.std.specs.Prelude.{◌≡◌};
ghost use Rattle.bursts.specs.Bus.{no_reads, quiet_bus};

use crate::{Burst, Bus, Masks};

// No READ burst: before the first READ.
pub fn no_reads() -> [Burst; 4]
    ensures { result ≡ no_reads }
{
    [Burst::none(); 4]
}

impl Bus {
    // The bus before the first record.
    pub fn quiet() -> Bus
        ensures { result ≡ quiet_bus }
    {
        Bus {
            write: Burst::none(),
            reads: no_reads(),
            masks: Masks::all_high(),
        }
    }
}
