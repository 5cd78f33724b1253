// The state as 94 numbers, the words, for a caller that holds it in C: each number is of one kind, and a state is written in one
// way. `reading` takes a state from them, `writing` puts one there.
#![tactic(auto)]

ghost use Rattle.std.specs.Prelude.{◌≡◌};
ghost use Rattle.words.specs.Words.{state_in, words_of, holds, put_words};

mod reading;
mod writing;

use rules::State;

// How many numbers a state has.
pub const WORDS: usize = 94;

// The state that these words are read as.
#[tactic(auto, unfolding(crate::specs::Words::state_in))]
pub fn state(words: &[u64]) -> State
    ensures { result ≡ state_in words.now }
{
    State {
        core: reading::core(words),
        banks: reading::banks(words),
    }
}

// The words of this state, where the slice has their places.
#[tactic(auto, using(crate::proofs::Stores::state_stored))]
pub fn put(s: State, words: &mut [u64])
    ensures { words.new ≡ put_words (words_of s) words.old }
{
    writing::put_head(words, s.core);
    writing::put_bus(words, s.core.bus);
    writing::put_banks(words, s.banks);
}

// All of its words.
#[tactic(auto, using(crate::proofs::Stores::put_all, crate::proofs::Stores::words_length))]
fn numbers(s: State) -> [u64; WORDS]
    ensures { result ≡ words_of s }
{
    let mut words = [0; WORDS];
    put(s, &mut words);
    words
}

// These words are as many as a state has, and are those of the state that they are read as. Their number is asked first, though equal
// slices are as long: it spares reading a state of the others, and with it known the reading is a fifth cheaper.
#[tactic(auto, using(crate::proofs::Equal::equal_words, crate::proofs::Stores::words_length), unfolding(crate::specs::Words::holds))]
pub fn holds(words: &[u64]) -> bool
    ensures { result ≡ holds words.now }
{
    words.len() == WORDS && words == numbers(state(words)).as_slice()
}
