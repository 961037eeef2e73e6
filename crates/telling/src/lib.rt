// A line's command, called, and what it did to the list told.
#![tactic(auto)]

use address::Address;
use facts::{
    Kind, Told, put_about, put_facts, put_listed, put_mark, put_numbered, put_refused, put_restored,
};
use keeper::{Host, is_refused, lend_rows, lend_wait, rows_for};
use model::{Reply, Settings};
use node::Node;
use report::{put_byte, put_marked, put_marked_address};
use show::least;
use std::io::Write;
use text::{Command, Records};
use timers::Ending;
use types::{Action, Gossip};
use wait::{Wait, WaitState};

// A mark alone: a line that is not of the form (`?`), a call without a node (`0`), a wait record that was lent (`w`).
fn marked<W: Write>(mut host: Host, mark: u8, to: &mut W, out: &mut [u8]) -> Host {
    let at = put_mark(to, out, host.unwritten, host.line, mark);
    let end = put_byte(to, out, at, b'\n');
    host.unwritten = end;
    host
}

fn malformed<W: Write>(mut host: Host, to: &mut W, out: &mut [u8]) -> Host {
    host.malformed = std::num::wrapping_add_u64(host.malformed, 1);
    marked(host, b'?', to, out)
}

// The number of a refusal, 0 where a reply is none.
fn refusal_of(reply: Reply) -> u8 {
    match reply {
        Reply::Done(_) => 0,
        Reply::Already => 0,
        Reply::NotDue => 0,
        Reply::Refuted => 0,
        Reply::Gone => 0,
        Reply::Refused(refusal) => model::refusal_number(refusal),
        Reply::RefusedAt(refusal, _) => model::refusal_number(refusal),
    }
}

// A refused call is told by its number.
fn replied<W: Write>(mut host: Host, reply: Reply, to: &mut W, out: &mut [u8]) -> Host {
    if !is_refused(reply) {
        return host;
    }
    let end = put_refused(to, out, host.unwritten, host.line, refusal_of(reply));
    host.unwritten = end;
    host
}

// Who is listed, if there is a node.
pub fn put_old<W: Write>(
    to: &mut W,
    out: &mut [u8],
    at: usize,
    line: u64,
    node: Node,
    has_node: bool,
) -> usize {
    if has_node {
        return put_listed(to, out, at, line, node);
    }
    at
}

// A node that stood before is told to its end.
fn ended<W: Write>(mut host: Host, to: &mut W, out: &mut [u8]) -> Host {
    let listed = put_old(to, out, host.unwritten, host.line, host.node, host.has_node);
    host.unwritten = listed;
    host.has_node = false;
    host
}

fn create<W: Write>(
    host: Host,
    settings: Settings,
    own: Address,
    number: u64,
    tick: u32,
    to: &mut W,
    out: &mut [u8],
) -> Host {
    let before = ended(host, to, out);
    let answer = swim::create(settings, own, number);
    let reply = answer.reply;
    let node = answer.node;
    if is_refused(reply) {
        return replied(before, reply, to, out);
    }
    created(before, own, number, node, Wait::new(tick), to, out)
}

// A fresh node is told by its own address.
fn created<W: Write>(
    mut host: Host,
    own: Address,
    number: u64,
    node: Node,
    wait: Wait,
    to: &mut W,
    out: &mut [u8],
) -> Host {
    let end = put_numbered(to, out, host.unwritten, host.line, b'n', own, number);
    host.unwritten = end;
    host.renewed(node, wait)
}

// The listed addresses of a restored node are its first entries.
fn restored<W: Write>(mut host: Host, node: Node, wait: Wait, to: &mut W, out: &mut [u8]) -> Host {
    let end = put_restored(to, out, host.unwritten, host.line, node);
    host.unwritten = end;
    host.renewed(node, wait)
}

fn restore<W: Write>(
    host: Host,
    settings: Settings,
    tick: u32,
    image: &[u8],
    to: &mut W,
    out: &mut [u8],
) -> Host {
    let before = ended(host, to, out);
    let back = swim::saved::restore(image, settings, tick);
    let answer = back.answer;
    let wait = back.wait;
    let reply = answer.reply;
    let node = answer.node;
    if is_refused(reply) {
        return replied(before, reply, to, out);
    }
    restored(before, node, wait, to, out)
}

// The image's bytes, so many, stand at the front of their row.
fn restore_first<W: Write>(
    host: Host,
    settings: Settings,
    tick: u32,
    bytes: &[u8],
    length: usize,
    to: &mut W,
    out: &mut [u8],
) -> Host {
    if length <= bytes.len() {
        return restore(host, settings, tick, &bytes[0..length], to, out);
    }
    malformed(host, to, out)
}

fn add<W: Write>(
    mut host: Host,
    peer: Address,
    number: u64,
    draws: &[u64],
    to: &mut W,
    out: &mut [u8],
) -> Host {
    let none = Gossip::none();
    let done = accounts::add_peer(host.node, peer, number, draws);
    let answer = done.answer;
    let account = done.account;
    let reply = answer.reply;
    let after = answer.node;
    let told = Told {
        line: host.line,
        kind: Kind::Add,
        sender: peer,
        start: 0,
    };
    let at = put_facts(
        to,
        out,
        host.unwritten,
        told,
        account,
        [none; 64],
        0,
        [none; 65],
        0,
    );
    host.node = after;
    host.unwritten = at;
    replied(host, reply, to, out)
}

fn sender_of(action: Action) -> Address {
    match action {
        Action::Ping {
            from,
            requested_by: _,
        } => from,
        Action::PingReq { from, suspect: _ } => from,
        Action::Ack {
            from,
            forward_to: _,
        } => from,
    }
}

fn kind_of(action: Action) -> Kind {
    match action {
        Action::Ping {
            from: _,
            requested_by: _,
        } => Kind::Ping,
        Action::PingReq {
            from: _,
            suspect: _,
        } => Kind::PingReq,
        Action::Ack {
            from: _,
            forward_to: _,
        } => Kind::Ack,
    }
}

fn receive<W: Write>(
    mut host: Host,
    action: Action,
    records: Records,
    draws: &[u64],
    to: &mut W,
    out: &mut [u8],
) -> Host {
    let rooms = host.rooms;
    let lent = rows_for(rooms, 64, 65);
    let rows = records.rows;
    let done = accounts::receive(
        host.node,
        action,
        rows,
        records.given,
        draws,
        lent.gossip,
        lent.events,
    );
    let account = done.account;
    let received = done.received;
    let answer = received.answer;
    let events = received.events;
    let reply = answer.reply;
    let after = answer.node;
    let told = Told {
        line: host.line,
        kind: kind_of(action),
        sender: sender_of(action),
        start: 0,
    };
    let at = put_facts(
        to,
        out,
        host.unwritten,
        told,
        account,
        rows,
        records.given,
        events,
        received.reported,
    );
    host.node = after;
    host.unwritten = at;
    replied(host, reply, to, out)
}

// A step that was made: a ping (`p`) or a ping request (`q`) that went to, out, a timer that was started (`t`).
fn put_step<W: Write>(
    to: &mut W,
    out: &mut [u8],
    at: usize,
    line: u64,
    before: WaitState,
    after: WaitState,
    now: u32,
) -> usize {
    match before {
        WaitState::SendingPing => match after {
            WaitState::WaitingForPingAck { target, number: _ } => {
                put_about(to, out, at, line, b'p', target)
            }
            _ => at,
        },
        WaitState::SendingPingReq { target, number: _ } => put_about(
            to, out, at, line, b'q', target,
        ),
        WaitState::Declaring { target, number } => {
            let mark = put_mark(to, out, at, line, b't');
            let whom = put_marked_address(to, out, mark, b' ', target);
            let named = put_marked(to, out, whom, b' ', number);
            let start = put_marked(to, out, named, b' ', now as u64);
            put_byte(to, out, start, b'\n')
        }
        _ => at,
    }
}

fn is_done(reply: Reply) -> bool {
    match reply {
        Reply::Done(_) => true,
        _ => false,
    }
}

fn step<W: Write>(mut host: Host, now: u32, draws: &[u64], to: &mut W, out: &mut [u8]) -> Host {
    let held = host.wait;
    let before = held.state;
    let rooms = host.rooms;
    let lent = rows_for(rooms, 256, 1);
    let none = Gossip::none();
    let stepped = lender::step(
        host.node,
        held,
        now,
        draws,
        [none; 256],
        least(lent.gossip, 256),
        [none; 1],
        least(lent.events, 1),
    );
    let answer = stepped.answer;
    let reply = answer.reply;
    let wait = stepped.wait;
    let after = wait.state;
    let node = answer.node;
    host.node = node;
    host.wait = wait;
    if !is_done(reply) {
        return replied(host, reply, to, out);
    }
    let at = put_step(to, out, host.unwritten, host.line, before, after, now);
    host.unwritten = at;
    host
}

// The tick at which the timer that ends was started; 0 where none ends.
fn start_of(node: Node, now: u32) -> u32 {
    let settings = node.settings;
    let timers = node.timers;
    let entries = timers.entries;
    match timers::first_over(
        entries,
        least(timers.len, 16),
        settings.suspect_timeout,
        now,
    ) {
        Ending::Nothing => 0,
        Ending::At(place) => {
            if place < 16 {
                let t = entries[place];
                return t.since;
            }
            0
        }
    }
}

fn end_timer<W: Write>(mut host: Host, now: u32, to: &mut W, out: &mut [u8]) -> Host {
    let rooms = host.rooms;
    let lent = rows_for(rooms, 0, 1);
    let none = Gossip::none();
    let done = accounts::end_timer(host.node, now, lent.gossip, lent.events);
    let account = done.account;
    let ended = done.ended;
    let answer = ended.answer;
    let events = ended.events;
    let reply = answer.reply;
    let after = answer.node;
    let told = Told {
        line: host.line,
        kind: Kind::Timer,
        sender: address::blank(),
        start: start_of(host.node, now),
    };
    let mut row = [none; 65];
    row[0] = events[0];
    let at = put_facts(
        to,
        out,
        host.unwritten,
        told,
        account,
        [none; 64],
        0,
        row,
        ended.reported,
    );
    host.node = after;
    host.unwritten = at;
    replied(host, reply, to, out)
}

// A call on the node.
fn call<W: Write>(
    host: Host,
    command: Command,
    records: Records,
    draws: &[u64],
    to: &mut W,
    out: &mut [u8],
) -> Host {
    if !host.has_node {
        return marked(host, b'0', to, out);
    }
    match command {
        Command::Add { peer, number } => add(host, peer, number, draws, to, out),
        Command::Message(action) => receive(host, action, records, draws, to, out),
        Command::Step { now } => step(host, now, draws, to, out),
        Command::Timer { now } => end_timer(host, now, to, out),
        _ => host,
    }
}

fn counted(mut host: Host) -> Host {
    host.calls = std::num::wrapping_add_u64(host.calls, 1);
    host
}

// Tells of a line what its call did.
pub fn tell<W: Write>(
    host: Host,
    command: Command,
    records: Records,
    draws: &[u64],
    bytes: &[u8],
    length: usize,
    to: &mut W,
    out: &mut [u8],
) -> Host {
    match command {
        Command::Malformed => malformed(host, to, out),
        Command::New {
            settings,
            own,
            number,
            tick,
        } => create(counted(host), settings, own, number, tick, to, out),
        Command::Wait { phase, tick } => lend_wait(marked(host, b'w', to, out), phase, tick),
        Command::Rows { gossip, events } => lend_rows(host, gossip, events),
        Command::Read { places: _ } => counted(host),
        Command::Write { room: _, action: _ } => counted(host),
        Command::Why(_) => counted(host),
        Command::Save { room: _ } => counted(host),
        Command::Salvage { room: _ } => counted(host),
        Command::Restore { settings, tick } => restore_first(
            counted(host),
            settings,
            tick,
            bytes,
            length,
            to,
            out,
        ),
        _ => call(counted(host), command, records, draws, to, out),
    }
}
