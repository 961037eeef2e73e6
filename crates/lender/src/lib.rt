// A host's side of the calls: rows and the wait record stand in locals, and are lent to them.
#![tactic(auto)]

ghost use Rattle.std.specs.Prelude.{◌≤◌, ◌≡◌, take, drop};
ghost use Rattle.swim.specs.Promises.{Receives, Steps, EndsTimer};

use node::{Answer, Node};
use types::{Action, Gossip};
use wait::Wait;

// What a timer call gives: how it ended, and the row of events that was lent.
#[derive(Clone, Copy)]
pub struct Ended {
    pub reported: usize,
    pub events: [Gossip; 1],
    pub answer: Answer,
}

// The timer call over so many lent places, one at most.
pub fn end_timer(node: Node, tick: u32, events: [Gossip; 1], places: usize) -> Ended
    requires { places ≤ 1 }
    ensures { EndsTimer node tick (take places events) (record { reported = result.reported; answer = result.answer }) (take places result.events) × (drop places result.events ≡ drop places events) }
{
    let mut lent = events;
    let outcome = swim::end_timer(node, tick, &mut lent[..places]);
    Ended {
        reported: outcome.reported,
        events: lent,
        answer: outcome.answer,
    }
}

// What a step gives: how it ended, the wait record and the rows that were lent.
#[derive(Clone, Copy)]
pub struct Stepped {
    pub wait: Wait,
    pub reported: usize,
    pub gossip: [Gossip; 256],
    pub events: [Gossip; 1],
    pub answer: Answer,
}

// The detector step over a lent wait record and so many lent places.
pub fn step(
    node: Node,
    wait: Wait,
    tick: u32,
    draws: &[u64],
    gossip: [Gossip; 256],
    room: usize,
    events: [Gossip; 1],
    places: usize,
) -> Stepped
    requires { (room ≤ 256) × (places ≤ 1) }
    ensures { Steps node wait tick draws.now (take room gossip) (take places events) (record { reported = result.reported; answer = result.answer }) result.wait (take room result.gossip) (take places result.events) × (drop room result.gossip ≡ drop room gossip) × (drop places result.events ≡ drop places events) }
{
    let mut held = wait;
    let mut out = gossip;
    let mut told = events;
    let outcome = swim::step(
        node,
        &mut held,
        tick,
        draws,
        &mut out[..room],
        &mut told[..places],
    );
    Stepped {
        wait: held,
        reported: outcome.reported,
        gossip: out,
        events: told,
        answer: outcome.answer,
    }
}

// What a message call gives: how it ended, and the rows that were lent.
#[derive(Clone, Copy)]
pub struct Received {
    pub reported: usize,
    pub gossip: [Gossip; 64],
    pub events: [Gossip; 65],
    pub answer: Answer,
}

// The message call over so many lent records and places.
pub fn receive(
    node: Node,
    action: Action,
    records: [Gossip; 65],
    given: usize,
    draws: &[u64],
    gossip: [Gossip; 64],
    room: usize,
    events: [Gossip; 65],
    places: usize,
) -> Received
    requires { (given ≤ 65) × (room ≤ 64) × (places ≤ 65) }
    ensures { Receives node action (take given records) draws.now (take room gossip) (take places events) (record { reported = result.reported; answer = result.answer }) (take room result.gossip) (take places result.events) × (drop room result.gossip ≡ drop room gossip) × (drop places result.events ≡ drop places events) }
{
    let mut out = gossip;
    let mut told = events;
    let outcome = swim::receive(
        node,
        action,
        &records[..given],
        draws,
        &mut out[..room],
        &mut told[..places],
    );
    Received {
        reported: outcome.reported,
        gossip: out,
        events: told,
        answer: outcome.answer,
    }
}
