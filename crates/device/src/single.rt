// One record: asked, taken, or asked and then taken.
ghost use Rattle.std.specs.Prelude.{◌≡◌};
ghost use Rattle.rules.specs.OneRecord.{answer_of, ask_call, took, take_call, stepped, step};
ghost use Rattle.device.specs.Engine.{reported_by};

use crate::{Device, Outcome, Took, engine};
use bursts::Beat;
use rules::{Answer, Refusal, Setup};

// "Number 0 and its own number" where the record is taken; else what was found.
fn answer(v: Result<(), Refusal>, reported: u64, own: u64, beat: Beat) -> Answer
    ensures { result ≡ answer_of v (reported_by v reported own) beat }
{
    Answer {
        verdict: v,
        reported: if v.is_ok() { own } else { reported },
        beat,
    }
}

impl Device {
    // May this record stand next? Nothing is changed: the engine judges it from a copy of the state and stores in no page. The
    // page is lent for number 7 alone.
    pub fn ask(self, setup: Setup, bytes: &[u8], page: &[u8]) -> Answer
        ensures { result ≡ ask_call setup self.0 bytes.now page.now }
    {
        if bytes.len() != 16 {
            return answer(Err(Refusal::WrongLength), 0, 0, Beat::Quiet);
        }
        let s = self.0;
        let mut no_page = [0u8; 1];
        let mut no_beats = [0u64; 1];
        let w = engine::judge(
            setup,
            s,
            bytes,
            page.len(),
            &mut no_page[0..0],
            &mut no_beats[0..0],
        );
        answer(w.verdict, w.reported, s.core.number, Beat::Quiet)
    }

    // Takes a record: the beat on its clock and the next state. A record that asking refuses, for any reason, leaves state and
    // page as they were and has no beat.
    pub fn take(self, setup: Setup, bytes: &[u8], page: &mut [u8]) -> Took
        ensures { took result.beat result.next.0 page.new ≡ take_call setup self.0 bytes.now page.old }
    {
        if bytes.len() != 16 {
            return Took {
                beat: Beat::Quiet,
                next: self,
            };
        }
        let lent = page.len();
        let mut no_beats = [0u64; 1];
        let w = engine::judge(setup, self.0, bytes, lent, page, &mut no_beats[0..0]);
        Took {
            beat: w.beat,
            next: Device(w.next),
        }
    }

    // Ask, then take.
    pub fn record(self, setup: Setup, bytes: &[u8], page: &mut [u8]) -> Outcome
        ensures { stepped result.answer result.next.0 page.new ≡ step setup self.0 bytes.now page.old }
    {
        let asked = self.ask(setup, bytes, page);
        let took = self.take(setup, bytes, page);
        Outcome {
            answer: Answer {
                beat: took.beat,
                ..asked
            },
            next: took.next,
        }
    }
}
