// The wait record of the failure detector, and what a step gives.
#![tactic(auto)]

pub mod mail;

ghost use Rattle.std.specs.Prelude.{◌≡◌};
ghost use Rattle.wait.specs.Views.{fresh_wait, step_plain, kept_rows};

use crate::mail::Mail;
use address::Address;
use model::Reply;
use node::{Answer, Node};
use types::{Event, Gossip};

// What the detector waits for. SendingPing comes first: a fresh wait record is in it.
#[derive(Clone, Copy)]
pub enum WaitState {
    SendingPing,
    WaitingForPingAck { target: Address, number: u64 },
    SendingPingReq { target: Address, number: u64 },
    WaitingForPingReqAck { target: Address, number: u64 },
    Declaring { target: Address, number: u64 },
}

// The state, and the tick at which it was entered.
#[derive(Clone, Copy)]
pub struct Wait {
    pub state: WaitState,
    pub since: u32,
}

impl Wait {
    // A fresh one is SendingPing at any tick.
    pub fn new(tick: u32) -> Wait
        ensures { result ≡ fresh_wait tick }
    {
        Wait {
            state: WaitState::SendingPing,
            since: tick,
        }
    }
}

// What a step gives: its answer, the wait record, the gossip of its messages in sending order, and the event that it reported.
#[derive(Clone, Copy)]
pub struct Stepped {
    pub wait: Wait,
    pub written: usize,
    pub reported: usize,
    pub gossip: [Gossip; Stepped::GOSSIP],
    pub events: [Gossip; Stepped::EVENTS],
    pub answer: Answer,
}

impl Stepped {
    // A step needs rows of so many places.
    pub const GOSSIP: usize = 256;

    pub const EVENTS: usize = 1;

    // Nothing sent, nothing reported.
    pub fn plain(reply: Reply, node: Node, wait: Wait) -> Stepped
        ensures { result ≡ step_plain reply node wait }
    {
        let nothing = Gossip {
            event: Event::Nothing,
        };
        let gossip = [nothing; Stepped::GOSSIP];
        let events = [nothing; Stepped::EVENTS];
        Stepped {
            answer: Answer::plain(reply, node),
            wait,
            gossip,
            written: 0,
            events,
            reported: 0,
        }
    }

    // A step that is kept, with what it sends and reports, and how many held events it collected.
    pub fn kept(
        used: usize,
        node: Node,
        mail: Mail,
        wait: Wait,
        events: [Gossip; Stepped::EVENTS],
        reported: usize,
        collected: usize,
    ) -> Stepped
        ensures { result ≡ kept_rows used node mail wait events reported collected }
    {
        let letters = mail.letters;
        let gossip = mail.gossip;
        Stepped {
            answer: Answer {
                reply: Reply::Done(used),
                node,
                letters,
                sent: mail.sent,
                collected,
            },
            wait,
            gossip,
            written: mail.written,
            events,
            reported,
        }
    }
}
