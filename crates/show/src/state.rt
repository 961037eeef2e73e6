// A node's state as text.
ghost use Rattle.std.specs.Prelude.{◌≤◌};

use address::Address;
use departed::Departed;
use heap::Entry;
use member::Member;
use model::Lamps;
use node::Node;
use report::{
    put_byte, put_bytes, put_entry, put_marked, put_marked_address, put_member, put_timer,
};
use std::io::Write;
use timers::Timer;
use wait::{Wait, WaitState};

// A count that a row's length bounds.
pub fn least(count: usize, most: usize) -> usize
    ensures { result ≤ most }
{
    if count < most { count } else { most }
}

// The place of an address among the first n records of the list; 0 where it is not there.
fn place_of(table: [Member; 64], n: usize, peer: Address) -> usize
    requires { n ≤ 64 }
    ensures { result ≤ 63 }
{
    for i in 0..n {
        let m = table[i];
        if address::same(peer, m.addr) {
            return i;
        }
    }
    0
}

// The members in probing order.
fn put_members<W: Write>(
    to: &mut W,
    out: &mut [u8],
    from: usize,
    table: [Member; 64],
    order: [Address; 64],
    n: usize,
) -> usize
    requires { n ≤ 64 }
{
    let mut at = from;
    for i in 0..n {
        let place = place_of(table, n, order[i]);
        let m = table[place];
        let state = m.state;
        let start = put_byte(to, out, at, b' ');
        at = put_member(to, out, start, m.addr, state, m.number);
    }
    put_byte(to, out, at, b'\n')
}

// A heap in array order.
fn put_heap<W: Write>(
    to: &mut W,
    out: &mut [u8],
    from: usize,
    entries: [Entry; 128],
    n: usize,
) -> usize
    requires { n ≤ 128 }
{
    let mut at = from;
    for i in 0..n {
        let e = entries[i];
        let g = e.gossip;
        let event = g.event;
        let start = put_byte(to, out, at, b' ');
        at = put_entry(to, out, start, event, e.sends, e.size);
    }
    put_byte(to, out, at, b'\n')
}

// The timers in starting order.
fn put_timers<W: Write>(
    to: &mut W,
    out: &mut [u8],
    from: usize,
    entries: [Timer; 16],
    n: usize,
) -> usize
    requires { n ≤ 16 }
{
    let mut at = from;
    for i in 0..n {
        let t = entries[i];
        let start = put_byte(to, out, at, b' ');
        at = put_timer(to, out, start, t.addr, t.number, t.since);
    }
    put_byte(to, out, at, b'\n')
}

// The departed, oldest last removal first.
fn put_departed<W: Write>(
    to: &mut W,
    out: &mut [u8],
    from: usize,
    entries: [Departed; 128],
    n: usize,
) -> usize
    requires { n ≤ 128 }
{
    let mut at = from;
    for i in 0..n {
        let d = entries[i];
        let start = put_marked_address(to, out, at, b' ', d.addr);
        at = put_marked(to, out, start, b':', d.number);
    }
    put_byte(to, out, at, b'\n')
}

fn put_peer<W: Write>(
    to: &mut W,
    out: &mut [u8],
    at: usize,
    target: Address,
    number: u64,
) -> usize {
    let start = put_marked_address(to, out, at, b' ', target);
    put_marked(to, out, start, b' ', number)
}

// A wait record's state.
fn put_phase<W: Write>(to: &mut W, out: &mut [u8], at: usize, phase: WaitState) -> usize {
    match phase {
        WaitState::SendingPing => put_bytes(to, out, at, b"w ping"),
        WaitState::WaitingForPingAck { target, number } => {
            let word = put_bytes(to, out, at, b"w ack");
            put_peer(to, out, word, target, number)
        }
        WaitState::SendingPingReq { target, number } => {
            let word = put_bytes(to, out, at, b"w req");
            put_peer(to, out, word, target, number)
        }
        WaitState::WaitingForPingReqAck { target, number } => {
            let word = put_bytes(to, out, at, b"w reqack");
            put_peer(to, out, word, target, number)
        }
        WaitState::Declaring { target, number } => {
            let word = put_bytes(to, out, at, b"w dead");
            put_peer(to, out, word, target, number)
        }
    }
}

fn put_wait<W: Write>(to: &mut W, out: &mut [u8], at: usize, wait: Wait) -> usize {
    let phase = wait.state;
    let word = put_phase(to, out, at, phase);
    let tick = put_marked(to, out, word, b' ', wait.since as u64);
    put_byte(to, out, tick, b'\n')
}

fn put_list<W: Write>(to: &mut W, out: &mut [u8], at: usize, node: Node) -> usize {
    let members = node.members;
    let table = members.table;
    let order = members.order;
    let row = order.row;
    let word = put_bytes(to, out, at, b"@ ");
    let position = report::put_number(to, out, word, order.position as u64);
    put_members(to, out, position, table, row, least(members.len, 64))
}

fn put_lamps<W: Write>(to: &mut W, out: &mut [u8], at: usize, lamps: Lamps) -> usize {
    let letter = put_byte(to, out, at, b'l');
    let alive = put_marked(to, out, letter, b' ', lamps.alive as u64);
    let pending = put_marked(to, out, alive, b' ', lamps.pending as u64);
    let suspected = put_marked(to, out, pending, b' ', lamps.suspected as u64);
    put_byte(to, out, suspected, b'\n')
}

fn put_heaps<W: Write>(to: &mut W, out: &mut [u8], at: usize, node: Node) -> usize {
    let disseminator = node.disseminator;
    let alive = disseminator.alive;
    let rising = alive.entries;
    let deceased = disseminator.deceased;
    let dead = deceased.entries;
    let plus = put_byte(to, out, at, b'+');
    let first = put_heap(to, out, plus, rising, least(alive.len, 128));
    let cross = put_byte(to, out, first, b'x');
    put_heap(to, out, cross, dead, least(deceased.len, 128))
}

// The seven lines of a state; the lamps are what was read of it.
pub fn put_state<W: Write>(
    to: &mut W,
    out: &mut [u8],
    at: usize,
    node: Node,
    lamps: Lamps,
    wait: Wait,
) -> usize {
    let timers = node.timers;
    let running = timers.entries;
    let list = put_list(to, out, at, node);
    let counts = put_lamps(to, out, list, lamps);
    let heaps = put_heaps(to, out, counts, node);
    let letter = put_byte(to, out, heaps, b't');
    let third = put_timers(to, out, letter, running, least(timers.len, 16));
    let waited = put_wait(to, out, third, wait);
    let departed = node.departed;
    let gone = departed.entries;
    let last = put_byte(to, out, waited, b'd');
    put_departed(to, out, last, gone, least(departed.len, 128))
}
