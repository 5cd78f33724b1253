// What a bank's record says, as number 15 asks it.
ghost use Rattle.std.specs.Prelude.{◌≡◌};
ghost use Rattle.rules.specs.Banks.{is_open, is_closed, row_of, closed, every};

use crate::{Bank, Status};

impl Status {
    pub fn is_open(self) -> bool
        ensures { result ≡ is_open self }
    {
        matches!(self, Status::Open { .. })
    }

    // A bank not started is neither open nor closed.
    pub fn is_closed(self) -> bool
        ensures { result ≡ is_closed self }
    {
        matches!(self, Status::Closed { .. })
    }

    // The open row.
    pub fn row(self) -> u16
        ensures { result ≡ row_of self }
    {
        match self {
            Status::Open { row, .. } => row,
            Status::NotStarted | Status::Closed { .. } => 0,
        }
    }
}

// "Every bank closed."
pub fn all_closed(banks: [Bank; 4]) -> bool
    ensures { result ≡ every closed banks }
{
    banks.iter().all(|b| b.status.is_closed())
}
