// A node as a value: its settings, its own address, the list, the disseminator, the timers and the departed. And the calls that need nothing else.
#![tactic(auto)]

pub mod parts;
pub mod settings;
pub mod tests;

ghost use Rattle.std.specs.Prelude.{◌≡◌, length};
ghost use Rattle.address.specs.Here.{here};
ghost use Rattle.model.specs.Node.{fresh};
ghost use Rattle.model.specs.Calls as calls;
ghost use Rattle.member.specs.Views.{pack_members};
ghost use Rattle.node.specs.Views.{stored_view, pack_node, nobody, no_letter, silent_answer, plain_answer, answer_of, created_of};

use address::Address;
use departed::DepartedRow;
use disseminate::Disseminator;
use member::{Member, Members};
use model::{Drew, Lamps, Refusal, Reply, Settings};
use order::Order;
use timers::Timers;
use types::{Action, Optional};

#[derive(Clone, Copy)]
pub struct Node {
    pub settings: Settings,
    pub own: Address,
    pub members: Members,
    pub disseminator: Disseminator,
    pub timers: Timers,
    pub departed: DepartedRow,
}

impl Node {
    // "it lists that address Alive at place 0, all else empty"
    pub fn new(settings: Settings, own: Address, number: u64) -> Node
        ensures { result ≡ pack_node (fresh settings own number) }
    {
        Node {
            settings,
            own,
            members: Members::new(own, number),
            disseminator: Disseminator::new(),
            timers: Timers::new(),
            departed: DepartedRow::new(),
        }
    }

    // Zeros, where an answer has no node to give.
    pub fn none() -> Node
        ensures { result ≡ pack_node nobody }
    {
        let settings = Settings {
            ping_interval: 0,
            ping_timeout: 0,
            ping_req_timeout: 0,
            suspect_timeout: 0,
            ping_req_group_size: 0,
            send_constant: 0,
            max_selected: 0,
            max_size: 0,
            collect: false,
            remember: false,
        };
        Node {
            settings,
            own: address::blank(),
            members: nobody_listed(),
            disseminator: Disseminator::new(),
            timers: Timers::new(),
            departed: DepartedRow::new(),
        }
    }
}

// A list of nobody.
fn nobody_listed() -> Members
    ensures { result ≡ pack_members here.blank nobody.members }
{
    let table = [Member::none(); Members::CAPACITY];
    let row = [address::blank(); Members::CAPACITY];
    Members {
        table,
        len: 0,
        order: Order { row, position: 0 },
        lamps: Lamps::none(),
    }
}

// A message to be sent, and how many gossip records it carries.
#[derive(Clone, Copy)]
pub struct Letter {
    pub target: Address,
    pub action: Action,
    pub count: usize,
}

impl Letter {
    // What stands in an unused place.
    pub fn none() -> Letter
        ensures { result ≡ no_letter }
    {
        let blank = address::blank();
        Letter {
            target: blank,
            action: Action::Ping {
                from: blank,
                requested_by: Optional::Absent,
            },
            count: 0,
        }
    }
}

// What a call answers: how it ended, the node, the messages to be sent, in order, and how many held events were collected.
#[derive(Clone, Copy)]
pub struct Answer {
    pub reply: Reply,
    pub node: Node,
    pub letters: [Letter; Answer::LETTERS],
    pub sent: usize,
    pub collected: usize,
}

impl Answer {
    // A ping request goes to a group of at most so many.
    pub const LETTERS: usize = 4;

    // An answer that sends nothing.
    pub fn silent(reply: Reply, node: Node, collected: usize) -> Answer
        ensures { result ≡ silent_answer reply node collected }
    {
        let l = Letter::none();
        let letters = [l; Answer::LETTERS];
        Answer {
            reply,
            node,
            letters,
            sent: 0,
            collected,
        }
    }

    // And nothing was collected.
    pub fn plain(reply: Reply, node: Node) -> Answer
        ensures { result ≡ plain_answer reply node }
    {
        Answer::silent(reply, node, 0)
    }

    // A refusal hands the node back as it came.
    pub fn refused(refusal: Refusal, node: Node) -> Answer
        ensures { result ≡ plain_answer (Reply.Refused refusal) node }
    {
        Answer::plain(Reply::Refused(refusal), node)
    }
}

// Creation takes settings, own address and its number. It tests 5, then 1; refused, it returns no node.
pub fn create(settings: Settings, own: Address, number: u64) -> Answer
    ensures { result ≡ created_of (calls.create here settings own number) }
{
    if !address::in_range(own) {
        return Answer::refused(Refusal::AddressRange, Node::none());
    }
    if !settings::in_range(settings) {
        return Answer::refused(Refusal::Setting, Node::none());
    }
    Answer::plain(Reply::Done(0), Node::new(settings, own, number))
}

// Adding a peer at a given number: 2, 5, already, 7, 8. No event.
pub fn add_peer(node: Node, a: Address, number: u64, draws: &[u64]) -> Answer
    ensures { result ≡ answer_of (calls.add_peer here (stored_view node) a number draws.now) }
{
    tests::has_rows(node);
    if !tests::sound(node) {
        return Answer::refused(Refusal::Unsound, node);
    }
    if !address::in_range(a) {
        return Answer::refused(Refusal::AddressRange, node);
    }
    let members = node.members;
    if members.lists(a) {
        return Answer::plain(Reply::Already, node);
    }
    let kept = members.add_member(node.own, a, number, draws, 0);
    let after = kept.members;
    let drew = kept.drew;
    match drew {
        Drew::Used(used) => Answer::plain(Reply::Done(used), node.with_members(after)),
        Drew::Refused(refusal) => Answer::refused(refusal, node),
    }
}
