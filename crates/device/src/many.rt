// A device before its first record, and records of a lent slice one after another.
ghost use Rattle.std.specs.Prelude.{◌≡◌, length};
ghost use Rattle.rules.specs.Parts.{start};
ghost use Rattle.rules.specs.Report.{left, records_call, records_next};

use crate::{Device, Judged, engine};
use bursts::Bus;
use rules::{Bank, Core, Ran, Refreshes, Setup, StartUp, State, Status};
use units::Ps;

impl Device {
    // Before the first record: the trace's period and grade, and the watched bank and row.
    pub fn start(period: Ps, grade: u8, bank: u8, row: u16) -> Device
        ensures { result.0 ≡ start period grade bank row }
    {
        let bank_before = Bank {
            status: Status::NotStarted,
            active: None,
            stored: None,
        };
        let startup = StartUp {
            allclosed: None,
            refreshes: Refreshes::Zero,
            register: None,
        };
        let core = Core {
            period,
            grade,
            bank,
            row,
            number: 0,
            last: None,
            startup,
            bus: Bus::quiet(),
        };
        Device(State {
            core,
            banks: [bank_before; 4],
        })
    }

    // The records of a lent slice from this state, each as the one-record call would judge it. What the state may hold is
    // asked once, and not again for each record: a state that the judge itself leaves is admitted, but for its record number.
    pub fn records(self, setup: Setup, bytes: &[u8], page: &mut [u8], beats: &mut [u64]) -> Judged
        ensures { (left result.ran page.new beats.new ≡ records_call setup self.0 bytes.now page.old beats.old)
            × (result.next.0 ≡ records_next setup self.0 bytes.now (length page.old)) }
    {
        let lent = page.len();
        let w = engine::judge(setup, self.0, bytes, lent, page, beats);
        Judged {
            ran: Ran {
                verdict: w.verdict,
                reported: w.reported,
            },
            next: Device(w.next),
        }
    }
}
