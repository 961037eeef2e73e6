// The handler: what a message does to a node, by value.
#![tactic(auto)]

pub mod gossip;

ghost use Rattle.std.specs.Prelude.{◌≡◌, true, ◌≤◌, length, take};
ghost use Rattle.address.specs.Here.{here};
ghost use Rattle.model.specs.Rows.{pad_to};
ghost use Rattle.model.specs.Words as W;
ghost use Rattle.model.specs.Calls as calls;
ghost use Rattle.model.specs.Handler as handler;
ghost use Rattle.types.specs.Views.{to_optional, to_action, no_gossip};
ghost use Rattle.node.specs.Views.{view_node, pack_node, stored_view};
ghost use Rattle.node.specs.Rows.{Ready};
ghost use Rattle.message.specs.Answers.{no_rows, one_letter, refused_received, answered_of, settled_of, forwarded_of, acknowledged_of, received_of, handled_of, lent_rows};
ghost use Rattle.message.specs.Views.{Heeded};

use address::Address;
use gossip::{Heard, Lent};
use model::{Drew, Refusal, Reply, State};
use node::{Answer, Letter, Node};
use types::{Action, Event, Gossip, Optional};

// What a message call gives: the answer, the gossip of its message, and the events to report.
#[derive(Clone, Copy)]
pub struct Received {
    pub written: usize,
    pub reported: usize,
    pub gossip: [Gossip; Received::GOSSIP],
    pub events: [Gossip; Heard::EVENTS],
    pub answer: Answer,
}

impl Received {
    // "A message has at most 64 gossip records."
    pub const GOSSIP: usize = 64;
}

// A row of no gossip.
fn no_gossip() -> [Gossip; Received::GOSSIP]
    ensures { result ≡ no_rows }
{
    let nothing = Gossip {
        event: Event::Nothing,
    };
    [nothing; Received::GOSSIP]
}

// A refusal: the node as it came, nothing sent and nothing reported. Made in one piece, since an answer beside it would be a node more on the stack.
fn refused(node: Node, reply: Reply) -> Received
    ensures { result ≡ refused_received node reply }
{
    let none = Letter::none();
    let letters = [none; Answer::LETTERS];
    Received {
        answer: Answer {
            reply,
            node,
            letters,
            sent: 0,
            collected: 0,
        },
        gossip: no_gossip(),
        written: 0,
        events: gossip::no_events(),
        reported: 0,
    }
}

// An answer that sends one message.
fn one_letter(used: usize, node: Node, letter: Letter, collected: usize) -> Answer
    ensures { result ≡ one_letter used node letter collected }
{
    let none = Letter::none();
    let mut letters = [none; Answer::LETTERS];
    letters[0] = letter;
    Answer {
        reply: Reply::Done(used),
        node,
        letters,
        sent: 1,
        collected,
    }
}

// One message goes out with gossip chosen for it.
fn answer(heard: Heard, used: usize, target: Address, action: Action) -> Received
    requires { Ready heard.node }
    ensures { result ≡ answered_of used heard target action }
{
    let spread = heard.node.spread();
    let gossip = spread.rows;
    let events = heard.events;
    let letter = Letter {
        target,
        action,
        count: spread.count,
    };
    Received {
        answer: one_letter(used, spread.node, letter, heard.collected),
        gossip,
        written: spread.count,
        events,
        reported: heard.reported,
    }
}

// A listed sender of an Ack becomes Alive at its own number.
fn acked(node: Node, from: Address) -> Node
    requires { Ready node }
    ensures { result ≡ pack_node (handler.acked here from (view_node node)) }
{
    let members = node.members;
    if !members.lists(from) {
        return node;
    }
    node.change(from, State::Alive, members.member_number(from))
}

// The first records of a row, and nothing behind them.
fn first_of(rows: [Gossip; Received::GOSSIP], given: usize) -> [Gossip; Received::GOSSIP]
    requires { given ≤ 64 }
    ensures { result ≡ pad_to 64 no_gossip (take given rows) }
{
    let mut out = no_gossip();
    let mut i = 0;
    while i < given {
        out[i] = rows[i];
        i += 1;
    }
    out
}

// An Ack without forward_to: its sender is Alive.
fn settle_ack(heard: Heard, used: usize, from: Address) -> Received
    requires { Ready heard.node }
    ensures { result ≡ settled_of used heard from }
{
    let events = heard.events;
    Received {
        answer: Answer::silent(Reply::Done(used), acked(heard.node, from), heard.collected),
        gossip: no_gossip(),
        written: 0,
        events,
        reported: heard.reported,
    }
}

// An Ack with forward_to: it goes there with the sender and gossip unchanged and no forward_to.
fn forward_ack(
    heard: Heard,
    used: usize,
    from: Address,
    to: Address,
    rows: [Gossip; Received::GOSSIP],
    given: usize,
) -> Received
    requires { given ≤ 64 }
    ensures { result ≡ forwarded_of used heard from to rows given }
{
    let events = heard.events;
    let letter = Letter {
        target: to,
        action: Action::new_ack(from, Optional::Absent),
        count: given,
    };
    Received {
        answer: one_letter(used, heard.node, letter, heard.collected),
        gossip: first_of(rows, given),
        written: given,
        events,
        reported: heard.reported,
    }
}

// To requested_by if present, else to the sender.
fn ack_target(from: Address, requested_by: Optional) -> Address
    ensures { result ≡ handler.ack_target here from (to_optional requested_by) }
{
    match requested_by {
        Optional::Absent => from,
        Optional::Given(by) => by,
    }
}

// Ping: gossip; then an unlisted sender is added; then choose; then an Ack, with requested_by in its forward_to.
fn handle_ping(
    node: Node,
    from: Address,
    requested_by: Optional,
    rows: [Gossip; Received::GOSSIP],
    given: usize,
    draws: &[u64],
) -> Received
    requires { Ready node × Heeded rows given × (here.valid from ≡ true) }
    ensures { result ≡ handled_of node (W.Ping from (to_optional requested_by)) rows given draws.now }
{
    let lent = Lent {
        rows,
        given,
        sender: Optional::Given(from),
    };
    let heard = gossip::handle_gossip(node, lent, draws);
    let drew = heard.drew;
    let at = heard.at;
    match drew {
        Drew::Used(used) => {
            let target = ack_target(from, requested_by);
            answer(heard, used, target, Action::new_ack(node.own, requested_by))
        },
        Drew::Refused(refusal) => refused(node, Reply::RefusedAt(refusal, at)),
    }
}

// PingReq: gossip, choose, Ping to the suspect with requested_by the asker; the asker isn't added.
fn handle_ping_req(
    node: Node,
    from: Address,
    suspect: Address,
    rows: [Gossip; Received::GOSSIP],
    given: usize,
    draws: &[u64],
) -> Received
    requires { Ready node × Heeded rows given }
    ensures { result ≡ handled_of node (W.PingReq from suspect) rows given draws.now }
{
    let lent = Lent {
        rows,
        given,
        sender: Optional::Absent,
    };
    let heard = gossip::handle_gossip(node, lent, draws);
    let drew = heard.drew;
    let at = heard.at;
    match drew {
        Drew::Used(used) => {
            let ping = Action::new_ping(node.own, Optional::Given(from));
            answer(heard, used, suspect, ping)
        },
        Drew::Refused(refusal) => refused(node, Reply::RefusedAt(refusal, at)),
    }
}

// Without forward_to its sender is Alive; with it the Ack goes on.
fn acknowledge(
    heard: Heard,
    used: usize,
    from: Address,
    forward_to: Optional,
    rows: [Gossip; Received::GOSSIP],
    given: usize,
) -> Received
    requires { Ready heard.node × (given ≤ 64) }
    ensures { result ≡ acknowledged_of used heard from rows given forward_to }
{
    match forward_to {
        Optional::Absent => settle_ack(heard, used, from),
        Optional::Given(to) => forward_ack(heard, used, from, to, rows, given),
    }
}

// Ack: gossip; without forward_to, a listed sender becomes Alive; with it, the Ack goes on.
fn handle_ack(
    node: Node,
    from: Address,
    forward_to: Optional,
    rows: [Gossip; Received::GOSSIP],
    given: usize,
    draws: &[u64],
) -> Received
    requires { Ready node × Heeded rows given }
    ensures { result ≡ handled_of node (W.Ack from (to_optional forward_to)) rows given draws.now }
{
    let lent = Lent {
        rows,
        given,
        sender: Optional::Absent,
    };
    let heard = gossip::handle_gossip(node, lent, draws);
    let drew = heard.drew;
    let at = heard.at;
    match drew {
        Drew::Used(used) => acknowledge(heard, used, from, forward_to, rows, given),
        Drew::Refused(refusal) => refused(node, Reply::RefusedAt(refusal, at)),
    }
}

// By the kind of the message.
fn dispatch_action(
    node: Node,
    action: Action,
    rows: [Gossip; Received::GOSSIP],
    given: usize,
    draws: &[u64],
) -> Received
    requires { Ready node × Heeded rows given × (calls.valid_action here (to_action action) ≡ true) }
    ensures { result ≡ handled_of node (to_action action) rows given draws.now }
{
    match action {
        Action::Ping { from, requested_by } => {
            handle_ping(node, from, requested_by, rows, given, draws)
        },
        Action::PingReq { from, suspect } => {
            handle_ping_req(node, from, suspect, rows, given, draws)
        },
        Action::Ack { from, forward_to } => handle_ack(node, from, forward_to, rows, given, draws),
    }
}

// A row has 64 places, which the prover finds where it stands by itself.
fn has_places(rows: [Gossip; Received::GOSSIP])
    ensures { length rows ≡ 64 }
{}

// The message: 2, 3, 4, 5, then the rules. Of the records that the host lends the first 64 stand in `rows`, and `given` is how many there are.
pub fn receive(
    node: Node,
    action: Action,
    rows: [Gossip; Received::GOSSIP],
    given: usize,
    draws: &[u64],
    gossip_room: usize,
    event_room: usize,
) -> Received
    ensures { (result ≡ received_of (calls.message here (stored_view node) (to_action action) (lent_rows rows given) draws.now (record { gossip = gossip_room; events = event_room }))) × (result.written ≤ gossip_room) × (result.written ≤ 64) × (result.reported ≤ event_room) × (result.reported ≤ 65) }
{
    node::tests::has_rows(node);
    has_places(rows);
    if !node::tests::sound(node) {
        return refused(node, Reply::Refused(Refusal::Unsound));
    }
    if gossip_room < Received::GOSSIP {
        return refused(node, Reply::Refused(Refusal::ShortRow));
    }
    if event_room < Heard::EVENTS {
        return refused(node, Reply::Refused(Refusal::ShortRow));
    }
    if Received::GOSSIP < given {
        return refused(node, Reply::Refused(Refusal::ManyRecords));
    }
    if !ranges::valid_action(action) {
        return refused(node, Reply::Refused(Refusal::AddressRange));
    }
    if !ranges::valid_rows(rows, given) {
        return refused(node, Reply::Refused(Refusal::AddressRange));
    }
    dispatch_action(node, action, rows, given, draws)
}
