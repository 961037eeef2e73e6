// What a call did to the list: each entry and each departure with its cause, read off the nodes before and after each rule.
#![tactic(auto)]

ghost use Rattle.std.specs.Prelude.{◌≡◌, true, [], ◌<◌, length};
ghost use Rattle.address.specs.Here.{here};
ghost use Rattle.model.specs.Calls as calls;
ghost use Rattle.types.specs.Views.{to_optional, to_action};
ghost use Rattle.member.specs.Views.{view_members, Held};
ghost use Rattle.node.specs.Views.{view_node, stored_view, answer_of};
ghost use Rattle.node.specs.Rows.{Ready};
ghost use Rattle.message.specs.Views.{Heeded, records_of};
ghost use Rattle.message.specs.Answers.{received_of, lent_rows};
ghost use Rattle.history.specs.Histories.{Add, Receive, Timer, moments};
ghost use Rattle.timer_call.specs.Views.{ended_of};
ghost use Rattle.accounts.specs.Changes.{no_change, between, changes, account_of};
ghost use Rattle.accounts.specs.Turns.{only_record, only_sender, rule_of, turn_of, pushed_of};
ghost use Rattle.accounts.specs.Walking.{walk_of};
ghost use Rattle.accounts.specs.Admitting.{heard_changes};
ghost use Rattle.accounts.specs.Audits.{has_run, entrant_of, resting};

use address::Address;
use member::Members;
use message::gossip::Lent;
use message::{Received, gossip};
use model::{Drew, Reply, State, both};
use node::{Answer, Node};
use timer_call::Ended;
use timers::Ending;
use types::{Action, Gossip, Optional};

// What a rule did to the address that it was asked about.
#[derive(Clone, Copy)]
pub struct Change {
    pub address: Address,
    // The number that the rule was asked with: a record's, a timer's, an added peer's; 0 of a sender.
    pub given: u64,
    pub enters: bool,
    pub leaves: bool,
    // How the address stood before the rule, and its number after it.
    pub listed: bool,
    pub state: State,
    pub held: u64,
    pub number: u64,
}

impl Change {
    // What stands in an unused place.
    pub fn none() -> Change
        ensures { result ≡ no_change }
    {
        Change {
            address: address::blank(),
            given: 0,
            enters: false,
            leaves: false,
            listed: false,
            state: State::Alive,
            held: 0,
            number: 0,
        }
    }
}

// How an address stands in the list before a rule and after it.
fn change_between(before: Members, after: Members, whom: Address, given: u64) -> Change
    requires { Held before × Held after }
    ensures { result ≡ between (view_members before).table (view_members after).table whom given }
{
    let was = before.find(whom);
    let is = after.find(whom);
    let state = was.state;
    Change {
        address: whom,
        given,
        enters: both(!was.listed, is.listed),
        leaves: both(was.listed, !is.listed),
        listed: was.listed,
        state,
        held: was.number,
        number: is.number,
    }
}

// The changes of a call, each at its place: record k of a message at place k, a Ping's sender behind the records.
#[derive(Clone, Copy)]
pub struct Account {
    pub changes: [Change; Account::PLACES],
    pub count: usize,
}

impl Account {
    // One for each of 64 records, and one for the sender.
    pub const PLACES: usize = 65;

    // Nothing was asked of the list.
    pub fn none() -> Account
        ensures { result ≡ account_of [] }
    {
        let nothing = Change::none();
        let changes = [nothing; Account::PLACES];
        Account { changes, count: 0 }
    }

    // One more, behind the others.
    fn push(self, change: Change) -> Account
        requires { self.count < 65 }
        ensures { result ≡ pushed_of self change }
    {
        let at = self.count;
        let mut changes = self.changes;
        changes[at] = change;
        Account {
            changes,
            count: at + 1,
        }
    }
}

// One rule of a message, run by itself: the node that it leaves, what it did, and the draws that it used.
#[derive(Clone, Copy)]
pub struct Turn {
    pub node: Node,
    pub change: Change,
    pub drew: Drew,
}

// A message of one record.
fn only_record(g: Gossip) -> Lent
    ensures { result ≡ only_record g }
{
    let rows = [g; 64];
    Lent {
        rows,
        given: 1,
        sender: Optional::Absent,
    }
}

// A message of no record, whose sender is to come in.
fn only_sender(from: Address) -> Lent
    ensures { result ≡ only_sender from }
{
    let nothing = Gossip::none();
    let rows = [nothing; 64];
    Lent {
        rows,
        given: 0,
        sender: Optional::Given(from),
    }
}

// The library's own rules on such a message, and how the address that they were asked about stands before and after.
fn run_rule(node: Node, lent: Lent, whom: Address, given: u64, draws: &[u64]) -> Turn
    requires { Ready node × Heeded lent.rows lent.given × (calls.valid_option here (to_optional lent.sender) ≡ true) }
    ensures { result ≡ turn_of node whom given draws.now (rule_of lent node draws.now) }
{
    let heard = gossip::handle_gossip(node, lent, draws);
    let after = heard.node;
    let drew = heard.drew;
    Turn {
        node: after,
        change: change_between(node.members, after.members, whom, given),
        drew,
    }
}

// The records of a message, one after the other: the node and the draws used behind them, and what each did. Stopped by a refusal, what those before it did.
#[derive(Clone, Copy)]
pub struct Walk {
    pub node: Node,
    pub used: usize,
    pub is_whole: bool,
    pub account: Account,
}

// Each record runs on the node that those before it left.
fn walk_records(node: Node, rows: [Gossip; 64], given: usize, draws: &[u64]) -> Walk
    requires { Ready node × Heeded rows given }
    ensures { result ≡ walk_of node draws.now (records_of rows given) }
{
    let mut at = node;
    let mut account = Account::none();
    let mut used = 0;
    let mut i = 0;
    while i < given {
        let g = rows[i];
        let event = g.event;
        let parts = types::parts_of(event);
        let turn = run_rule(
            at,
            only_record(g),
            parts.subject,
            parts.number,
            &draws[used..],
        );
        let drew = turn.drew;
        match drew {
            Drew::Used(more) => used += more,
            Drew::Refused(_) => {
                return Walk {
                    node,
                    used: 0,
                    is_whole: false,
                    account,
                };
            }
        }
        account = account.push(turn.change);
        at = turn.node;
        i += 1;
    }
    Walk {
        node: at,
        used,
        is_whole: true,
        account,
    }
}

// What the records of a message did, and behind them the sender that is to come in, if there is one.
fn account_of(
    node: Node,
    rows: [Gossip; 64],
    given: usize,
    entrant: Optional,
    draws: &[u64],
) -> Account
    requires { Ready node × Heeded rows given × (calls.valid_option here (to_optional entrant) ≡ true) }
    ensures { result ≡ account_of (heard_changes (records_of rows given) (to_optional entrant) (view_node node) draws.now) }
{
    let walk = walk_records(node, rows, given, draws);
    let account = walk.account;
    let used = walk.used;
    if !walk.is_whole {
        return account;
    }
    match entrant {
        Optional::Absent => account,
        Optional::Given(from) => {
            let turn = run_rule(walk.node, only_sender(from), from, 0, &draws[used..]);
            let drew = turn.drew;
            match drew {
                Drew::Used(_) => account.push(turn.change),
                Drew::Refused(_) => account,
            }
        }
    }
}

// Did the rules of a call run, as far as its reply tells? An add of a listed address counts, and a timer that ended without a removal.
fn has_run(reply: Reply) -> bool
    ensures { result ≡ has_run reply }
{
    match reply {
        Reply::Done(_) => true,
        Reply::Already => true,
        Reply::NotDue => false,
        Reply::Refuted => true,
        Reply::Gone => true,
        Reply::Refused(_) => false,
        Reply::RefusedAt(_, _) => false,
    }
}

// Who comes in behind the records: a Ping's sender, and nobody else.
fn entrant(action: Action) -> Optional
    ensures { to_optional result ≡ entrant_of (to_action action) }
{
    match action {
        Action::Ping {
            from,
            requested_by: _,
        } => Optional::Given(from),
        Action::PingReq {
            from: _,
            suspect: _,
        } => Optional::Absent,
        Action::Ack {
            from: _,
            forward_to: _,
        } => Optional::Absent,
    }
}

// A row has 64 places, which the prover finds where it stands by itself.
fn has_places(rows: [Gossip; 64])
    ensures { length rows ≡ 64 }
{}

// What a message call gives, and what each of its rules did.
#[derive(Clone, Copy)]
pub struct MessageAudit {
    pub received: Received,
    pub account: Account,
}

// The message, by the library's own call; then its records and its sender once more, one by one.
pub fn receive(
    node: Node,
    action: Action,
    rows: [Gossip; 64],
    given: usize,
    draws: &[u64],
    gossip_room: usize,
    event_room: usize,
) -> MessageAudit
    ensures { (result.received ≡ received_of (calls.message here (stored_view node) (to_action action) (lent_rows rows given) draws.now (record { gossip = gossip_room; events = event_room }))) × (result.account ≡ account_of (changes (moments here (Receive (to_action action) (lent_rows rows given) draws.now (record { gossip = gossip_room; events = event_room })) (resting node)))) }
{
    node::tests::has_rows(node);
    has_places(rows);
    let received = message::receive(node, action, rows, given, draws, gossip_room, event_room);
    let answer = received.answer;
    let reply = answer.reply;
    if has_run(reply) {
        return MessageAudit {
            received,
            account: account_of(node, rows, given, entrant(action), draws),
        };
    }
    MessageAudit {
        received,
        account: Account::none(),
    }
}

// The one change of a call that asks about one address.
fn one_change(before: Node, after: Node, whom: Address, given: u64) -> Account
    requires { Held before.members × Held after.members }
    ensures { result ≡ pushed_of (account_of []) (between (view_members before.members).table (view_members after.members).table whom given) }
{
    let empty = Account::none();
    empty.push(change_between(before.members, after.members, whom, given))
}

// What adding a peer gives, and what it did.
#[derive(Clone, Copy)]
pub struct AddAudit {
    pub answer: Answer,
    pub account: Account,
}

// Adding a peer, by the library's own call.
pub fn add_peer(node: Node, a: Address, number: u64, draws: &[u64]) -> AddAudit
    ensures { (result.answer ≡ answer_of (calls.add_peer here (stored_view node) a number draws.now)) × (result.account ≡ account_of (changes (moments here (Add a number draws.now) (resting node)))) }
{
    node::tests::has_rows(node);
    let answer = node::add_peer(node, a, number, draws);
    let reply = answer.reply;
    let after = answer.node;
    if has_run(reply) {
        return AddAudit {
            answer,
            account: one_change(node, after, a, number),
        };
    }
    AddAudit {
        answer,
        account: Account::none(),
    }
}

// What a timer call gives, and what it did.
#[derive(Clone, Copy)]
pub struct TimerAudit {
    pub ended: Ended,
    pub account: Account,
}

// The timer call, by the library's own; the timer that ended is the earliest started that is over.
pub fn end_timer(node: Node, tick: u32, gossip_room: usize, event_room: usize) -> TimerAudit
    ensures { (result.ended ≡ ended_of (calls.end_timer here (stored_view node) tick (record { gossip = gossip_room; events = event_room }))) × (result.account ≡ account_of (changes (moments here (Timer tick (record { gossip = gossip_room; events = event_room })) (resting node)))) }
{
    node::tests::has_rows(node);
    let ended = timer_call::end_timer(node, tick, gossip_room, event_room);
    let answer = ended.answer;
    let reply = answer.reply;
    let after = answer.node;
    if !has_run(reply) {
        return TimerAudit {
            ended,
            account: Account::none(),
        };
    }
    let settings = node.settings;
    let timers = node.timers;
    let entries = timers.entries;
    let ending = timers::first_over(entries, timers.len, settings.suspect_timeout, tick);
    match ending {
        Ending::Nothing => TimerAudit {
            ended,
            account: Account::none(),
        },
        Ending::At(place) => {
            let timer = entries[place];
            TimerAudit {
                ended,
                account: one_change(node, after, timer.addr, timer.number),
            }
        }
    }
}
