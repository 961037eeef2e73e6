// The failure detector: a step in each of its five states.
#![tactic(auto)]

pub mod declaring;
pub mod waiting;

ghost use Rattle.std.specs.Prelude.{◌≡◌, ◌≤◌, true};
ghost use Rattle.address.specs.Here.{here};
ghost use Rattle.model.specs.Detector as D;
ghost use Rattle.model.specs.Calls as calls;
ghost use Rattle.node.specs.Views.{stored_view};
ghost use Rattle.node.specs.Rows.{Ready};
ghost use Rattle.wait.specs.Views.{to_state, to_wait, stepped_of};
ghost use Rattle.detection.specs.Views.{or_stop, tested_of};

use model::{Refusal, Reply, Settings};
use node::Node;
use wait::{Stepped, Wait, WaitState};

// Is the address of a wait record in range? SendingPing holds none.
fn in_range(state: WaitState) -> bool
    ensures { result ≡ calls.valid_state here (to_state state) }
{
    match state {
        WaitState::SendingPing => true,
        WaitState::WaitingForPingAck { target, number } => address::in_range(target),
        WaitState::SendingPingReq { target, number } => address::in_range(target),
        WaitState::WaitingForPingReqAck { target, number } => address::in_range(target),
        WaitState::Declaring { target, number } => address::in_range(target),
    }
}

// How long a state waits: SendingPingReq and Declaring go on at once.
fn wait_of(settings: Settings, state: WaitState) -> u32
    ensures { result ≡ D.wait_of settings (to_state state) }
{
    match state {
        WaitState::SendingPing => settings.ping_interval,
        WaitState::WaitingForPingAck { target, number } => settings.ping_timeout,
        WaitState::SendingPingReq { target, number } => 0,
        WaitState::WaitingForPingReqAck { target, number } => settings.ping_req_timeout,
        WaitState::Declaring { target, number } => 0,
    }
}

// What the tests before a step say: is it due, and what it answers where it is not.
#[derive(Clone, Copy)]
pub struct Tested {
    pub due: bool,
    pub reply: Reply,
}

// A test that fails stops the step.
fn or_stop(fails: bool, reply: Reply, rest: Tested) -> Tested
    ensures { result ≡ or_stop fails reply rest }
{
    if fails {
        return Tested { due: false, reply };
    }
    rest
}

// The tests: 2, 3, 5, not due. In a function of their own, so that their copy of the node is gone before the rules begin.
fn test_step(node: Node, wait: Wait, tick: u32, gossip_room: usize, event_room: usize) -> Tested
    ensures { (result ≡ tested_of (stored_view node) (to_wait wait) tick (record { gossip = gossip_room; events = event_room })) × (result.due ≡ true → Ready node) }
{
    node::tests::has_rows(node);
    let sound = node::tests::sound(node);
    let gossip_short = gossip_room < Stepped::GOSSIP;
    let event_short = event_room < Stepped::EVENTS;
    let state = wait.state;
    let valid = in_range(state);
    let settings = node.settings;
    // Here now less start is a wrapping subtract of u32 ticks.
    let over = timers::is_over(wait_of(settings, state), tick, wait.since);
    let passed = Tested {
        due: true,
        reply: Reply::Done(0),
    };
    let due = or_stop(!over, Reply::NotDue, passed);
    let five = or_stop(!valid, Reply::Refused(Refusal::AddressRange), due);
    let events = or_stop(event_short, Reply::Refused(Refusal::ShortRow), five);
    let three = or_stop(gossip_short, Reply::Refused(Refusal::ShortRow), events);
    or_stop(!sound, Reply::Refused(Refusal::Unsound), three)
}

// The detector step: the tests, then the rules of its state.
pub fn step(
    node: Node,
    wait: Wait,
    tick: u32,
    draws: &[u64],
    gossip_room: usize,
    event_room: usize,
) -> Stepped
    ensures { (result ≡ stepped_of (calls.detect here (stored_view node) (to_wait wait) tick draws.now (record { gossip = gossip_room; events = event_room }))) × (result.written ≤ gossip_room) × (result.written ≤ 256) × (result.reported ≤ event_room) × (result.reported ≤ 1) }
{
    let told = test_step(node, wait, tick, gossip_room, event_room);
    let reply = told.reply;
    if !told.due {
        return Stepped::plain(reply, node, wait);
    }
    let state = wait.state;
    match state {
        WaitState::SendingPing => pinging::send_ping(node, wait, tick, draws),
        WaitState::WaitingForPingAck { target, number } => {
            let next = WaitState::SendingPingReq { target, number };
            let members = node.members;
            let after = waiting::wait_for_ack(members, target, next, tick);
            Stepped::plain(Reply::Done(0), node, after)
        }
        WaitState::SendingPingReq { target, number } => {
            pinging::send_ping_req(node, wait, target, number, tick, draws)
        }
        WaitState::WaitingForPingReqAck { target, number } => {
            let next = WaitState::Declaring { target, number };
            let members = node.members;
            let after = waiting::wait_for_ack(members, target, next, tick);
            Stepped::plain(Reply::Done(0), node, after)
        }
        WaitState::Declaring { target, number } => {
            declaring::declare_node_as_dead(node, wait, target, number, tick)
        }
    }
}
