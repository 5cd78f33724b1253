// The steps of start-up, as number 14 and the minima ask them.
ghost use Rattle.std.specs.Prelude.{◌≡◌, ◌&&◌};
ghost use Rattle.rules.specs.StartUp.{begun, two_done, last_refresh, counted_refresh, last_load};
ghost use Rattle.rules.specs.Parts.{word_in};
ghost use Rattle.units.specs.Time.{occurred};

use crate::{Refreshes, StartUp};
use units::Clock;

impl Refreshes {
    pub fn two_done(self) -> bool
        ensures { result ≡ two_done self }
    {
        matches!(self, Refreshes::Two(_))
    }

    // The last one.
    pub fn last(self) -> Option<Clock>
        ensures { result ≡ last_refresh self }
    {
        match self {
            Refreshes::Zero => None,
            Refreshes::One(n) | Refreshes::Two(n) => Some(n),
        }
    }

    // What number 12 counts from: "two or more refreshes done".
    pub fn counted(self) -> Option<Clock>
        ensures { result ≡ counted_refresh self }
    {
        match self {
            Refreshes::Zero | Refreshes::One(_) => None,
            Refreshes::Two(n) => Some(n),
        }
    }
}

impl StartUp {
    // The first PRECHARGE ALL has been.
    pub fn begun(self) -> bool
        ensures { result ≡ begun self }
    {
        self.allclosed.is_some()
    }

    pub fn last_load(self) -> Option<Clock>
        ensures { result ≡ last_load self.register }
    {
        self.register.map(|r| r.clock)
    }

    // The mode word; before the first LOAD MODE no record that reads it is taken.
    pub fn word(self) -> u16
        ensures { result ≡ word_in self.register }
    {
        self.register.map_or(0x30, |r| r.word)
    }

    // Two refreshes are done and a mode is loaded: everything is allowed.
    pub fn started(self) -> bool
        ensures { result ≡ (two_done self.refreshes && occurred (last_load self.register)) }
    {
        self.refreshes.two_done() && self.register.is_some()
    }
}
