// A beat as a word, and a word where the lent slice has its place.
ghost use Rattle.std.specs.Prelude.{◌≡◌, set};
ghost use Rattle.rules.specs.Report.{beat_word, cells_word};

use bursts::{Beat, Cells};

fn cells_word(kind: u8, c: Cells) -> u64
    ensures { result ≡ cells_word kind c }
{
    (kind as u64) * 281_474_976_710_656
        + (c.bank as u64) * 1_099_511_627_776
        + (c.row as u64) * 16_777_216
        + (c.column as u64) * 256
        + (c.lanes as u64)
}

// 0 none, 1 read, 2 write.
#[tactic(auto, unfolding(rules::specs::Report::beat_word))]
pub fn beat_word(b: Beat) -> u64
    ensures { result ≡ beat_word b }
{
    match b {
        Beat::Quiet => 0,
        Beat::Stores(c) => cells_word(2, c),
        Beat::Drives(c) => cells_word(1, c),
    }
}

// "Each word is written where the slice has its place."
pub fn put(beats: &mut [u64], at: usize, word: u64)
    ensures { beats.new ≡ set beats.old at word }
{
    if at < beats.len() {
        beats[at] = word;
    }
}
