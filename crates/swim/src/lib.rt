// What a host calls. The node goes in and comes back by value; the rows and the wait record are lent.
#![tactic(auto)]

pub mod lookup;
pub mod salvaged;
pub mod saved;

ghost use Rattle.std.specs.Prelude.{◌≡◌};
ghost use Rattle.model.specs.Calls as calls;
ghost use Rattle.node.specs.Views.{stored_view, answer_of, created_of};
ghost use Rattle.swim.specs.Promises.{Creates, Adds, Receives, Steps, EndsTimer, Explains};

use address::Address;
use model::Settings;
use node::{Answer, Node};
use types::{Action, Gossip};
use wait::Wait;
use why::Grounds;

// How a call ended, the node, the messages to send, and how many events were reported.
#[derive(Clone, Copy)]
pub struct Outcome {
    pub reported: usize,
    pub answer: Answer,
}

// Creation: 5, then 1. Refused, there is no node: its place holds zeros.
pub fn create(settings: Settings, own: Address, number: u64) -> Answer
    ensures { Creates settings own number result }
{
    node::create(settings, own, number)
}

// Adding a peer at a given number: 2, 5, "already", 7, 8. It sends and reports nothing.
pub fn add_peer(node: Node, a: Address, number: u64, draws: &[u64]) -> Answer
    ensures { Adds node a number draws.now result }
{
    node::add_peer(node, a, number, draws)
}

// The message: 2, 3, 4, 5, then the first of 6 to 9 that the rules reach. `rows` are its gossip records.
// Named form: a lent slice of gossip structs walked by a thin handler function; outputs written likewise.
pub fn receive(
    node: Node,
    action: Action,
    rows: &[Gossip],
    draws: &[u64],
    gossip: &mut [Gossip],
    events: &mut [Gossip],
) -> Outcome
    ensures { Receives node action rows.now draws.now gossip.old events.old result gossip.new events.new }
{
    let first = lent::first_64(rows);
    let done = message::receive(
        node,
        action,
        first,
        rows.len(),
        draws,
        gossip.len(),
        events.len(),
    );
    lent::write_64(gossip, done.gossip, done.written);
    lent::write_65(events, done.events, done.reported);
    Outcome {
        answer: done.answer,
        reported: done.reported,
    }
}

// The detector step: 2, 3, 5, "not due", then the rules.
// Named form: &mut to the small detector wait struct; a thin step function over the by-value step.
pub fn step(
    node: Node,
    wait: &mut Wait,
    tick: u32,
    draws: &[u64],
    gossip: &mut [Gossip],
    events: &mut [Gossip],
) -> Outcome
    ensures { Steps node wait.old tick draws.now gossip.old events.old result wait.new gossip.new events.new }
{
    let held = *wait;
    let done = detection::step(node, held, tick, draws, gossip.len(), events.len());
    *wait = done.wait;
    lent::write_256(gossip, done.gossip, done.written);
    lent::write_1(events, done.events, done.reported);
    Outcome {
        answer: done.answer,
        reported: done.reported,
    }
}

// The timer call: 2, 3, "not due", then the rules. It sends no gossip and reads no draw.
pub fn end_timer(node: Node, tick: u32, events: &mut [Gossip]) -> Outcome
    ensures { EndsTimer node tick events.old result events.new }
{
    let done = timer_call::end_timer(node, tick, 0, events.len());
    lent::write_1(events, done.events, done.reported);
    Outcome {
        answer: done.answer,
        reported: done.reported,
    }
}

// Which rule decides a gossip record on this node with these draws: 2, 5, then the refusal that `receive` would give, then the reason.
// It changes nothing, so it hands no node back.
pub fn why(node: Node, draws: &[u64], g: Gossip) -> Grounds
    ensures { Explains node draws.now g result }
{
    why::why(node, draws, g)
}
