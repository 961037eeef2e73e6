// The values of the rules, written as words that a C program holds. Each says too that its words are read as the value again: the widths
// of the types, which make that so, are known here and nowhere above.
ghost use Rattle.std.specs.Prelude.{◌≡◌, map, ◌++◌, ◌≤◌, ◌<◌, length, take, drop};
ghost use Rattle.model.specs.Answers.{number_of};
ghost use Rattle.cwords.specs.Reading.{address_in, gossip_of, entry_of, member_of, timer_of, departed_of, wait_of, optional_in, action_of};
ghost use Rattle.cwords.specs.Writing.{Narrow, first_word, address_words, optional_words, action_words, gossip_words, entry_words, state_word, member_words, timer_words, departed_words, target_words, wait_words, letter_words, action_in, code_of, used_of, fate_of, record_word, place_word};

use crate::read::ABSENT;
use address::Address;
use departed::Departed;
use heap::Entry;
use member::Member;
use model::{Cause, Refusal, Reply, State};
use node::Letter;
use timers::Timer;
use types::{Action, Gossip, Optional};
use wait::{Wait, WaitState};

fn wide_family(family: u8) -> u64
    ensures { (result ≡ family) × (result < 256) }
{
    family as u64
}

fn wide_port(port: u16) -> u64
    ensures { (result ≡ port) × (result < 65536) }
{
    port as u64
}

pub fn wide_tick(tick: u32) -> u64
    ensures { (result ≡ tick) × (result < 4294967296) }
{
    tick as u64
}

// The first word of an address: family × 65536 + port.
pub fn first_word(a: Address) -> u64
    ensures { (result ≡ first_word a) × Narrow a }
{
    wide_family(a.family) * 65536 + wide_port(a.port)
}

pub fn address_words(a: Address) -> [u64; 3]
    ensures { (result ≡ address_words a) × (address_in result ≡ a) }
{
    [first_word(a), a.high, a.low]
}

pub fn gossip_words(g: Gossip) -> [u64; 8]
    ensures { (result ≡ gossip_words g) × (gossip_of result ≡ g) }
{
    let v = g.event;
    let p = types::parts_of(v);
    let from = p.from;
    let subject = p.subject;
    [
        p.kind,
        first_word(from),
        from.high,
        from.low,
        first_word(subject),
        subject.high,
        subject.low,
        p.number,
    ]
}

pub fn entry_words(e: Entry) -> [u64; 10]
    ensures { (result ≡ entry_words e) × (entry_of result ≡ e) }
{
    let g = e.gossip;
    let v = g.event;
    let p = types::parts_of(v);
    let from = p.from;
    let subject = p.subject;
    [
        p.kind,
        first_word(from),
        from.high,
        from.low,
        first_word(subject),
        subject.high,
        subject.low,
        p.number,
        e.sends,
        e.size,
    ]
}

pub fn state_word(s: State) -> u64
    ensures { result ≡ state_word s }
{
    match s {
        State::Alive => 0,
        State::Pending => 1,
        State::Suspected => 2,
    }
}

pub fn member_words(m: Member) -> [u64; 5]
    ensures { (result ≡ member_words m) × (member_of result ≡ m) }
{
    let a = m.addr;
    let s = m.state;
    [first_word(a), a.high, a.low, state_word(s), m.number]
}

pub fn timer_words(t: Timer) -> [u64; 5]
    ensures { (result ≡ timer_words t) × (timer_of result ≡ t) }
{
    let a = t.addr;
    [first_word(a), a.high, a.low, t.number, wide_tick(t.since)]
}

pub fn departed_words(d: Departed) -> [u64; 4]
    ensures { (result ≡ departed_words d) × (departed_of result ≡ d) }
{
    let a = d.addr;
    [first_word(a), a.high, a.low, d.number]
}

// A state of the detector that has a target, by its kind.
fn target_words(kind: u64, target: Address, number: u64, since: u64) -> [u64; 6]
    ensures { (result ≡ target_words kind target number since) × Narrow target }
{
    [
        kind,
        first_word(target),
        target.high,
        target.low,
        number,
        since,
    ]
}

pub fn wait_words(w: Wait) -> [u64; 6]
    ensures { (result ≡ wait_words w) × (wait_of result ≡ w) }
{
    let state = w.state;
    let since = wide_tick(w.since);
    match state {
        WaitState::SendingPing => [0, 0, 0, 0, 0, since],
        WaitState::WaitingForPingAck { target, number } => target_words(1, target, number, since),
        WaitState::SendingPingReq { target, number } => target_words(2, target, number, since),
        WaitState::WaitingForPingReqAck { target, number } => target_words(
            3, target, number, since,
        ),
        WaitState::Declaring { target, number } => target_words(4, target, number, since),
    }
}

fn optional_words(o: Optional) -> [u64; 3]
    ensures { (result ≡ optional_words o) × (optional_in result ≡ o) }
{
    match o {
        Optional::Absent => [ABSENT, 0, 0],
        Optional::Given(a) => [first_word(a), a.high, a.low],
    }
}

// An action: kind, from, and the other address.
pub fn action_words(a: Action) -> [u64; 7]
    ensures { (result ≡ action_words a) × (action_of result ≡ a) }
{
    match a {
        Action::Ping { from, requested_by } => {
            let o = optional_words(requested_by);
            [1, first_word(from), from.high, from.low, o[0], o[1], o[2]]
        }
        Action::PingReq { from, suspect } => [
            2,
            first_word(from),
            from.high,
            from.low,
            first_word(suspect),
            suspect.high,
            suspect.low,
        ],
        Action::Ack { from, forward_to } => {
            let o = optional_words(forward_to);
            [3, first_word(from), from.high, from.low, o[0], o[1], o[2]]
        }
    }
}

// A letter: target, action, and how many records go with it. Its action is that of the message that it becomes.
pub fn letter_words(l: Letter) -> [u64; 11]
    ensures { (result ≡ letter_words l) × (action_in result ≡ l.action) }
{
    let target = l.target;
    let action = l.action;
    let a = action_words(action);
    [
        first_word(target),
        target.high,
        target.low,
        a[0],
        a[1],
        a[2],
        a[3],
        a[4],
        a[5],
        a[6],
        l.count as u64,
    ]
}

pub fn letter_rows(ls: [Letter; 4]) -> [[u64; 11]; 4]
    ensures { result ≡ map letter_words ls }
{
    let zeros = [0u64; 11];
    let mut out = [zeros; 4];
    let mut i = 0;
    while i < 4 {
        let x = ls[i];
        out[i] = letter_words(x);
        i += 1;
    }
    out
}

// The first k records of an array, over the first places of a lent row. The places past them stay as lent.
pub fn put_64(out: &mut [[u64; 8]], a: [Gossip; 64], k: usize)
    requires { (k ≤ length out.old) × (k ≤ 64) }
    ensures { out.new ≡ take k (map gossip_words a) ++ drop k out.old }
{
    let mut i = 0;
    while i < k {
        let g = a[i];
        out[i] = gossip_words(g);
        i += 1;
    }
}

pub fn put_65(out: &mut [[u64; 8]], a: [Gossip; 65], k: usize)
    requires { (k ≤ length out.old) × (k ≤ 65) }
    ensures { out.new ≡ take k (map gossip_words a) ++ drop k out.old }
{
    let mut i = 0;
    while i < k {
        let g = a[i];
        out[i] = gossip_words(g);
        i += 1;
    }
}

pub fn put_256(out: &mut [[u64; 8]], a: [Gossip; 256], k: usize)
    requires { (k ≤ length out.old) × (k ≤ 256) }
    ensures { out.new ≡ take k (map gossip_words a) ++ drop k out.old }
{
    let mut i = 0;
    while i < k {
        let g = a[i];
        out[i] = gossip_words(g);
        i += 1;
    }
}

pub fn put_1(out: &mut [[u64; 8]], a: [Gossip; 1], k: usize)
    requires { (k ≤ length out.old) × (k ≤ 1) }
    ensures { out.new ≡ take k (map gossip_words a) ++ drop k out.old }
{
    let mut i = 0;
    while i < k {
        let g = a[i];
        out[i] = gossip_words(g);
        i += 1;
    }
}

pub fn refusal_code(refusal: Refusal) -> u64
    ensures { (result ≡ number_of refusal) × (result < 256) }
{
    model::refusal_number(refusal) as u64
}

// Which record: 1 to 64. There is none behind them.
fn record_word(i: usize) -> u64
    ensures { (result ≡ record_word i) × (result ≤ 65) }
{
    if i < 64 {
        return i as u64 + 1;
    }
    0
}

// Where the rules of a message stopped: 1 to 64 for a record, 65 for the sender.
fn place_word(at: Cause) -> u64
    ensures { (result ≡ place_word at) × (result ≤ 65) }
{
    match at {
        Cause::Record(i) => record_word(i),
        Cause::Sender => 65,
    }
}

// 0 where the call was kept, 20 for "already", 21 for "not due", else the number of a refusal and 256 times where the rules stopped.
pub fn code_of(reply: Reply) -> u64
    ensures { result ≡ code_of reply }
{
    match reply {
        Reply::Done(_) => 0,
        Reply::Already => 20,
        Reply::NotDue => 21,
        Reply::Refuted => 0,
        Reply::Gone => 0,
        Reply::Refused(refusal) => refusal_code(refusal),
        Reply::RefusedAt(refusal, at) => refusal_code(refusal) + 256 * place_word(at),
    }
}

pub fn used_of(reply: Reply) -> u64
    ensures { result ≡ used_of reply }
{
    match reply {
        Reply::Done(used) => used as u64,
        Reply::Already => 0,
        Reply::NotDue => 0,
        Reply::Refuted => 0,
        Reply::Gone => 0,
        Reply::Refused(_) => 0,
        Reply::RefusedAt(_, _) => 0,
    }
}

// What became of a timer's address: 1 it was refuted and stays, 2 it had gone already, else 0.
pub fn fate_of(reply: Reply) -> u64
    ensures { result ≡ fate_of reply }
{
    match reply {
        Reply::Done(_) => 0,
        Reply::Already => 0,
        Reply::NotDue => 0,
        Reply::Refuted => 1,
        Reply::Gone => 2,
        Reply::Refused(_) => 0,
        Reply::RefusedAt(_, _) => 0,
    }
}
