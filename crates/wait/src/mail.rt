// Messages to be sent, and their gossip packed into one row in sending order.
ghost use Rattle.std.specs.Prelude.{◌≡◌, [], ◌++◌, ◌+◌, ◌*◌, ◌≤◌, ◌<◌, take};
ghost use Rattle.model.specs.Rows.{pad_to};
ghost use Rattle.laws.specs.Packing.{PackedRow};
ghost use Rattle.types.specs.Views.{no_gossip};
ghost use Rattle.disseminate.specs.Fit.{most_chosen};
ghost use Rattle.wait.specs.Views.{mail_of, PackedMail, posted};

use crate::Stepped;
use address::Address;
use node::{Answer, Letter};
use types::{Action, Event, Gossip};

#[derive(Clone, Copy)]
pub struct Mail {
    pub letters: [Letter; Answer::LETTERS],
    pub sent: usize,
    pub gossip: [Gossip; Stepped::GOSSIP],
    pub written: usize,
}

// The first records of a row go behind those that are written.
fn append(
    mut gossip: [Gossip; Stepped::GOSSIP],
    at: usize,
    rows: [Gossip; 64],
    count: usize,
) -> [Gossip; Stepped::GOSSIP]
    requires { PackedRow 256 no_gossip gossip at × (count ≤ 64) × (at + count ≤ 256) }
    ensures { result ≡ pad_to 256 no_gossip (take at gossip ++ take count rows) }
{
    let mut i = 0;
    while i < count {
        gossip[at + i] = rows[i];
        i += 1;
    }
    gossip
}

impl Mail {
    // Nothing to be sent yet.
    pub fn none() -> Mail
        ensures { result ≡ mail_of [] }
    {
        let letter = Letter::none();
        let letters = [letter; Answer::LETTERS];
        let nothing = Gossip {
            event: Event::Nothing,
        };
        let gossip = [nothing; Stepped::GOSSIP];
        Mail {
            letters,
            sent: 0,
            gossip,
            written: 0,
        }
    }

    // One more message, with the first records of a row.
    pub fn post(self, target: Address, action: Action, rows: [Gossip; 64], count: usize) -> Mail
        requires { PackedMail self × (self.sent < 4) × (count ≤ most_chosen) × (self.written ≤ 3 * most_chosen) }
        ensures { result ≡ posted self target action rows count }
    {
        let sent = self.sent;
        let at = self.written;
        let mut letters = self.letters;
        letters[sent] = Letter {
            target,
            action,
            count,
        };
        let gossip = self.gossip;
        Mail {
            letters,
            sent: sent + 1,
            gossip: append(gossip, at, rows, count),
            written: at + count,
        }
    }
}
