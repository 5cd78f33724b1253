// The masks of the last three clocks (01, Beats). A READ's lanes hang on those of two clocks before, and number 20 looks
// one clock further back.
ghost use Rattle.std.specs.Prelude.{◌≡◌, [], ◌∷◌, get_or};
ghost use Rattle.bursts.specs.Bus.{all_high, all_masks_high, masks_on, masks_after, two_before};

use crate::Masks;
use units::Clock;

// DQMB7 to DQMB0 all HIGH: "a skipped clock had COMMAND INHIBIT and all masks HIGH".
pub const ALL_HIGH: u8 = 255;

// "Two clocks earlier" than n.
pub fn two_before(n: Clock) -> Clock
    ensures { result ≡ two_before n }
{
    Clock(n.0.saturating_sub(2))
}

// The masks on clock m, where the last record stood on clock `last`: what is past it, or too far back, was skipped or
// is not held.
#[tactic(auto, unfolding(crate::specs::Bus::masks_on))]
pub fn masks_on(last: Option<Clock>, old: Masks, m: Clock) -> u8
    ensures { result ≡ masks_on last old m }
{
    match last {
        Some(x) if m <= x => old.ago(x.0 - m.0),
        _ => ALL_HIGH,
    }
}

impl Masks {
    // Before the first record.
    pub fn all_high() -> Masks
        ensures { result ≡ all_masks_high }
    {
        Masks {
            first: ALL_HIGH,
            second: ALL_HIGH,
            third: ALL_HIGH,
        }
    }

    // The masks so many clocks before the last record's clock.
    pub fn ago(self, clocks: u64) -> u8
        ensures { result ≡ get_or (self.first ∷ self.second ∷ self.third ∷ []) clocks all_high }
    {
        match clocks {
            0 => self.first,
            1 => self.second,
            2 => self.third,
            _ => ALL_HIGH,
        }
    }

    // What a record with these masks, after so many skipped clocks, leaves: its own, and those of the two clocks before
    // it.
    #[tactic(auto, unfolding(crate::specs::Bus::masks_after))]
    pub fn after(self, skipped: u32, masks: u8) -> Masks
        ensures { result ≡ masks_after skipped masks self }
    {
        match skipped {
            0 => Masks {
                first: masks,
                second: self.first,
                third: self.second,
            },
            1 => Masks {
                first: masks,
                second: ALL_HIGH,
                third: self.first,
            },
            _ => Masks {
                first: masks,
                second: ALL_HIGH,
                third: ALL_HIGH,
            },
        }
    }
}
