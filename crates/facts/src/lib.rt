// What a call did to the list, as lines of words: `LINE MARK ADDRESS GIVEN HELD STATE LISTED NUMBER KIND SENDER RECORD FROM START REPORTED`.
#![tactic(auto)]

ghost use Rattle.std.specs.Prelude.{◌≤◌};

use accounts::{Account, Change};
use address::Address;
use member::Member;
use node::Node;
use report::{
    put_byte, put_bytes, put_marked, put_marked_address, put_member, put_number, put_record,
    state_letter,
};
use show::least;
use std::io::Write;
use types::{Event, Gossip};

// The call that a change was made by: its line, and what a line says of it.
#[derive(Clone, Copy)]
pub struct Told {
    pub line: u64,
    pub kind: Kind,
    pub sender: Address,
    pub start: u32,
}

#[derive(Clone, Copy)]
pub enum Kind {
    Add,
    Ping,
    PingReq,
    Ack,
    Timer,
}

// `LINE MARK`.
pub fn put_mark<W: Write>(to: &mut W, out: &mut [u8], at: usize, line: u64, mark: u8) -> usize {
    let number = put_number(to, out, at, line);
    let space = put_byte(to, out, number, b' ');
    put_byte(to, out, space, mark)
}

// A call that was refused.
pub fn put_refused<W: Write>(
    to: &mut W,
    out: &mut [u8],
    at: usize,
    line: u64,
    refusal: u8,
) -> usize {
    let mark = put_mark(to, out, at, line, b'!');
    let number = put_marked(to, out, mark, b' ', refusal as u64);
    put_byte(to, out, number, b'\n')
}

// A line about one address: `LINE MARK ADDRESS`.
pub fn put_about<W: Write>(
    to: &mut W,
    out: &mut [u8],
    at: usize,
    line: u64,
    mark: u8,
    a: Address,
) -> usize {
    let start = put_mark(to, out, at, line, mark);
    let end = put_marked_address(to, out, start, b' ', a);
    put_byte(to, out, end, b'\n')
}

// A line about an address and a number.
pub fn put_numbered<W: Write>(
    to: &mut W,
    out: &mut [u8],
    at: usize,
    line: u64,
    mark: u8,
    a: Address,
    n: u64,
) -> usize {
    let start = put_mark(to, out, at, line, mark);
    let whom = put_marked_address(to, out, start, b' ', a);
    let end = put_marked(to, out, whom, b' ', n);
    put_byte(to, out, end, b'\n')
}

fn put_flag<W: Write>(to: &mut W, out: &mut [u8], at: usize, flag: bool) -> usize {
    if flag {
        return put_bytes(to, out, at, b" 1");
    }
    put_bytes(to, out, at, b" 0")
}

fn put_change<W: Write>(
    to: &mut W,
    out: &mut [u8],
    at: usize,
    line: u64,
    mark: u8,
    change: Change,
) -> usize {
    let start = put_mark(to, out, at, line, mark);
    let whom = put_marked_address(to, out, start, b' ', change.address);
    let given = put_marked(to, out, whom, b' ', change.given);
    let held = put_marked(to, out, given, b' ', change.held);
    let space = put_byte(to, out, held, b' ');
    let state = change.state;
    let letter = put_byte(to, out, space, state_letter(state));
    let listed = put_flag(to, out, letter, change.listed);
    put_marked(to, out, listed, b' ', change.number)
}

fn kind_word<W: Write>(kind: Kind, to: &mut W, out: &mut [u8], at: usize) -> usize {
    match kind {
        Kind::Add => put_bytes(to, out, at, b" add"),
        Kind::Ping => put_bytes(to, out, at, b" ping"),
        Kind::PingReq => put_bytes(to, out, at, b" req"),
        Kind::Ack => put_bytes(to, out, at, b" ack"),
        Kind::Timer => put_bytes(to, out, at, b" timer"),
    }
}

// The sender, the record and whom it is from; `-` where there is none. Behind the records stands the sender's own admission.
fn put_cause<W: Write>(
    to: &mut W,
    out: &mut [u8],
    at: usize,
    told: Told,
    place: usize,
    given: usize,
    event: Event,
) -> usize {
    let kind = told.kind;
    let word = kind_word(kind, to, out, at);
    let sender = put_marked_address(to, out, word, b' ', told.sender);
    if given <= place {
        let own = put_bytes(to, out, sender, b" sender -");
        return put_marked(to, out, own, b' ', told.start as u64);
    }
    let parts = types::parts_of(event);
    let record = put_marked(to, out, sender, b' ', place as u64);
    let from = put_marked_address(to, out, record, b' ', parts.from);
    put_marked(to, out, from, b' ', told.start as u64)
}

// Is this the event that reports a change: Joined of an entry, Deceased of a departure?
fn reports(event: Event, change: Change) -> bool {
    let parts = types::parts_of(event);
    if !address::same(parts.subject, change.address) {
        return false;
    }
    if change.enters {
        if parts.number != change.number {
            return false;
        }
        return parts.kind == 1;
    }
    if parts.number != change.given {
        return false;
    }
    parts.kind == 4
}

// What was reported of a change: the event about it, or none.
fn reported(events: [Gossip; 65], count: usize, change: Change) -> Event
    requires { count ≤ 65 }
{
    for i in 0..count {
        let g = events[i];
        let event = g.event;
        if reports(event, change) {
            return event;
        }
    }
    Event::Nothing
}

// Is it a death that was told: by a record, or by a timer that ended?
fn is_notice(kind: Kind, event: Event) -> bool {
    match kind {
        Kind::Timer => true,
        _ => {
            let parts = types::parts_of(event);
            parts.kind == 4
        }
    }
}

// `+` an entry, `-` a departure, `o` a death notice or a timer that removed nothing; of anything else nothing is told.
fn mark_of(change: Change, notice: bool) -> u8 {
    if change.enters {
        return b'+';
    }
    if change.leaves {
        return b'-';
    }
    if notice { b'o' } else { b' ' }
}

// One change, if there is something to tell of it.
fn put_fact<W: Write>(
    to: &mut W,
    out: &mut [u8],
    at: usize,
    told: Told,
    change: Change,
    place: usize,
    given: usize,
    event: Event,
    said: Event,
) -> usize {
    let kind = told.kind;
    let mark = mark_of(change, is_notice(kind, event));
    if mark == b' ' {
        return at;
    }
    let stood = put_change(to, out, at, told.line, mark, change);
    let cause = put_cause(to, out, stood, told, place, given, event);
    let space = put_byte(to, out, cause, b' ');
    let end = put_record(to, out, space, said);
    put_byte(to, out, end, b'\n')
}

// The record at a place; none behind them.
fn event_at(rows: [Gossip; 64], place: usize) -> Event {
    if place < 64 {
        let g = rows[place];
        let event = g.event;
        return event;
    }
    Event::Nothing
}

// What was reported of a change: nothing where nothing changed.
fn said_of(change: Change, events: [Gossip; 65], count: usize) -> Event {
    if change.enters {
        return reported(events, least(count, 65), change);
    }
    if change.leaves {
        return reported(events, least(count, 65), change);
    }
    Event::Nothing
}

// The first n changes, in their order.
fn put_each<W: Write>(
    to: &mut W,
    out: &mut [u8],
    from: usize,
    told: Told,
    changes: [Change; 65],
    n: usize,
    rows: [Gossip; 64],
    given: usize,
    events: [Gossip; 65],
    count: usize,
) -> usize
    requires { n ≤ 65 }
{
    let mut at = from;
    for i in 0..n {
        let change = changes[i];
        let event = event_at(rows, i);
        let said = said_of(change, events, count);
        at = put_fact(to, out, at, told, change, i, given, event, said);
    }
    at
}

// All changes of a call. `rows` are its records, so many, and `events` what it reported.
pub fn put_facts<W: Write>(
    to: &mut W,
    out: &mut [u8],
    at: usize,
    told: Told,
    account: Account,
    rows: [Gossip; 64],
    given: usize,
    events: [Gossip; 65],
    count: usize,
) -> usize {
    let changes = account.changes;
    let n = least(account.count, 65);
    put_each(to, out, at, told, changes, n, rows, given, events, count)
}

// Who is listed, each on a line: `LINE @ MEMBER`, or another mark.
fn put_rows<W: Write>(
    to: &mut W,
    out: &mut [u8],
    from: usize,
    line: u64,
    mark: u8,
    table: [Member; 64],
    n: usize,
) -> usize
    requires { n ≤ 64 }
{
    let mut at = from;
    for i in 0..n {
        let m = table[i];
        let state = m.state;
        let marked = put_mark(to, out, at, line, mark);
        let space = put_byte(to, out, marked, b' ');
        let member = put_member(to, out, space, m.addr, state, m.number);
        at = put_byte(to, out, member, b'\n');
    }
    at
}

// Everybody who is listed.
pub fn put_listed<W: Write>(to: &mut W, out: &mut [u8], at: usize, line: u64, node: Node) -> usize {
    let members = node.members;
    let table = members.table;
    put_rows(to, out, at, line, b'@', table, least(members.len, 64))
}

// A node that a restart gave: `LINE r OWN`, and those that it lists, `LINE b MEMBER`.
pub fn put_restored<W: Write>(
    to: &mut W,
    out: &mut [u8],
    at: usize,
    line: u64,
    node: Node,
) -> usize {
    let first = put_about(to, out, at, line, b'r', node.own);
    let members = node.members;
    let table = members.table;
    put_rows(to, out, first, line, b'b', table, least(members.len, 64))
}
